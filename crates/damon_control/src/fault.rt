ghost use Rattle.std.specs.Prelude.{◌≡◌};

use script_lines::ScriptKind;
use std::alloc::{AllocError, AllocFailed};
use std::fmt;

/// The first rejected line of a text.
///
/// [`Display`](fmt::Display) writes the line and the kind, and in parentheses the reason, if the kind
/// has one: `line 5: bad attrs (MinTooSmall { min: 2 })`.
#[derive(Clone, Copy, Debug, PartialEq, Eq)]
pub struct ScriptFault {
    /// The number of the line, from 1. A missing line counts.
    pub line: u64,
    pub kind: ScriptKind,
}

/// Why a text was not read.
#[derive(Clone, Copy, Debug, PartialEq, Eq)]
pub enum ReadFail {
    /// It is not a script.
    Script { fault: ScriptFault },
    /// Memory ran out.
    Memory,
}

impl fmt::Display for ScriptFault {
    fn fmt<W: fmt::Write>(&self, f: &mut fmt::Formatter<W>) -> fmt::Result {
        write!(f, "line {}: {}", self.line, self.kind)?;
        match self.kind {
            ScriptKind::Attrs { why } => write!(f, " ({why:?})"),
            ScriptKind::Range { why } => write!(f, " ({why:?})"),
            ScriptKind::Scheme { why } => write!(f, " ({why:?})"),
            _ => Ok(()),
        }
    }
}

impl From<ScriptFault> for ReadFail {
    ghost use Rattle.damon_control.specs.declared.fault.ReadFail.TheVariants.{Script};

    ghost from_gives = { λ fault e. e ≡ Script fault };

    fn from(fault: ScriptFault) -> ReadFail {
        ReadFail::Script { fault }
    }
}

impl From<AllocError> for ReadFail {
    ghost use Rattle.damon_control.specs.declared.fault.ReadFail.TheVariants.{Memory};

    ghost from_gives = { λ _ e. e ≡ Memory };

    fn from(_error: AllocError) -> ReadFail {
        ReadFail::Memory
    }
}

impl<T: Drop> From<AllocFailed<T>> for ReadFail {
    ghost use Rattle.damon_control.specs.declared.fault.ReadFail.TheVariants.{Memory};

    ghost from_gives = { λ _ e. e ≡ Memory };

    fn from(_error: AllocFailed<T>) -> ReadFail {
        ReadFail::Memory
    }
}

ghost use Rattle.std.specs.Prelude.{◌≡◌, ◌++◌, OnOk};
ghost use Rattle.damon_admin.specs.Written.{fault_line};

use damon_control::ScriptFault;
use line_text::{append_field, end_line};
use std::alloc::AllocError;

// Appends the line of a context whose lines are no script.
#[tactic(auto, using(line_text::proofs::Lemmas::appends))]
pub fn write_fault(out: &mut Vec<u8>, fault: ScriptFault) -> Result<(), AllocError>
    ensures { OnOk result (out.new.items ≡ out.old.items ++ fault_line fault) }
{
    append_field(out, b"fault line=", fault.line)?;
    out.extend_from_slice(b" ")?;
    out.extend_from_slice(fault.kind.text().as_bytes())?;
    end_line(out)
}

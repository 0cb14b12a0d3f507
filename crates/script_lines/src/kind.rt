ghost use Rattle.std.specs.Prelude.{◌≡◌};
ghost use Rattle.script_lines.specs.KindText.{kind_text};

use damon_types::{AttrsFault, SchemeFault};
use std::fmt;
use target_ranges::RangeWhy;

/// Why a line is rejected. If more than one kind applies, the first is given. The kinds and their
/// order are this project's own.
///
/// [`Display`](fmt::Display) writes its [`text`](ScriptKind::text).
#[derive(Clone, Copy, Debug, PartialEq, Eq)]
pub enum ScriptKind {
    /// Bytes follow the line `end`.
    After,
    /// The text ends before the LF of this line.
    Cut,
    /// The first line is none of the two headers of this kind of text.
    Header,
    /// The first word, up to a space or the line's end, is not allowed at this place.
    Word,
    /// A byte that is not printable, a space or a word too many or too few, an unknown action or
    /// key, keys out of order, or a value with the wrong parts or words.
    Form,
    /// A number or an address is misspelt or above the greatest value of its field.
    Number,
    /// A number is within its field, and outside its limits.
    Limit,
    /// The attributes break a limit.
    Attrs { why: AttrsFault },
    /// The most regions are above the most that are ever allowed.
    OverCap,
    /// The range is rejected after those before it.
    Range { why: RangeWhy },
    /// This range is one more than the most regions.
    RangesOverMax,
    /// The scheme or its slot breaks a limit.
    Scheme { why: SchemeFault },
    /// The slot was set by an earlier line.
    Repeated,
    /// No such target, or the address is outside it.
    Outside,
    /// With this line the script is more work than is allowed.
    TooMuch,
}

impl ScriptKind {
    /// The kind in a few words, without the reason that three of the kinds hold.
    pub fn text(self) -> &'static str
        ensures { result.now ≡ kind_text self }
    {
        match self {
            ScriptKind::After => "text after end",
            ScriptKind::Cut => "input ends early",
            ScriptKind::Header => "no header",
            ScriptKind::Word => "unexpected word",
            ScriptKind::Form => "bad form",
            ScriptKind::Number => "bad number",
            ScriptKind::Limit => "out of limit",
            ScriptKind::Attrs { .. } => "bad attrs",
            ScriptKind::OverCap => "max over cap",
            ScriptKind::Range { .. } => "bad range",
            ScriptKind::RangesOverMax => "ranges over max",
            ScriptKind::Scheme { .. } => "bad scheme",
            ScriptKind::Repeated => "slot set twice",
            ScriptKind::Outside => "outside span",
            ScriptKind::TooMuch => "too much work",
        }
    }
}

impl fmt::Display for ScriptKind {
    ghost use Rattle.std.specs.Prelude.{Some};

    ghost output = { λ kind. Some (kind_text kind) };

    fn fmt<W: fmt::Write>(&self, f: &mut fmt::Formatter<W>) -> fmt::Result {
        f.write_str(self.text())
    }
}

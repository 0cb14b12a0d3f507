ghost use Rattle.std.specs.Prelude.{◌≡◌, IfOk};
ghost use Rattle.damon_app.specs.Verifying.{counts_line};

use line_text::{append_field, end_line};
use run_journal::Lawful;
use std::alloc::{AllocError, Global};

// The line of a lawful journal with these counts.
pub(crate) fn make_line(alloc: Global, counts: Lawful) -> Result<Vec<u8>, AllocError>
    ensures { IfOk result (λ line. line.items ≡ counts_line counts) }
{
    let mut line = Vec::new(alloc);
    append_field(&mut line, b"lawful passes=", counts.passes)?;
    append_field(&mut line, b" loads=", counts.loads)?;
    append_field(&mut line, b" hits=", counts.hits)?;
    end_line(&mut line)?;
    Ok(line)
}

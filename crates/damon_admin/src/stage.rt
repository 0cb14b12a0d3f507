ghost use Rattle.std.specs.Prelude.{◌≡◌};
ghost use Rattle.damon_admin.specs.Stage.{completes, stage_after};

use script_lines::{first_word, same_word};

// How far a script is.
#[derive(Clone, Copy, PartialEq, Eq)]
pub enum Stage {
    // Before the line `begin`.
    Setup,
    // Among its commands.
    Body,
    // Among the lines of a commit.
    Commit,
    // After the line `end`.
    End,
}

// How far a script is after one more line, which is accepted there.
pub fn stage_after(stage: Stage, line: &[u8]) -> Stage
    ensures { result ≡ stage_after stage line.now }
{
    let word = first_word(line);
    match stage {
        Stage::Setup => {
            if same_word(word, b"begin") {
                Stage::Body
            } else {
                Stage::Setup
            }
        }
        Stage::Body => {
            if same_word(word, b"end") {
                Stage::End
            } else if same_word(word, b"commit") {
                Stage::Commit
            } else {
                Stage::Body
            }
        }
        Stage::Commit => {
            if same_word(word, b"apply") {
                Stage::Body
            } else {
                Stage::Commit
            }
        }
        Stage::End => Stage::End,
    }
}

// Whether the line between two stages completes a command.
pub fn completes(before: Stage, after: Stage) -> bool
    ensures { result ≡ completes before after }
{
    matches!((before, after), (Stage::Body | Stage::Commit, Stage::Body))
}

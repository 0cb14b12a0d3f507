ghost use Rattle.std.specs.Prelude.{◌≡◌, IfSome};
ghost use Rattle.script_lines.specs.Command.{Touch as TouchCommand, lent_value};
ghost use Rattle.script_run.specs.Part.{part_value, start_value};
ghost use Rattle.script_run.specs.Parts.{is_done, part_of};
ghost use Rattle.script_run.specs.Unfold.{stops_at};

use damon_control::Command;
use live_commit::{Commit, Phase};

/// Where steps stop before all of them are made.
#[derive(Clone, Copy, Debug, PartialEq, Eq)]
pub enum Until {
    /// Nowhere: their number is given.
    Count,
    /// Where each pick of a pass is cleared.
    Armed,
    /// Where no pass is under way.
    Idle,
}

/// What is left of a command under way, which is no commit: a commit is one event.
#[derive(Clone, Copy, Debug, PartialEq, Eq)]
pub enum Part {
    /// One touch of each of `count` pages, ascending, the first of which is `page`.
    Touches { page: u32, count: u32 },
    /// At most `most` steps.
    Steps { until: Until, most: u64 },
    /// One show.
    Show,
}

impl Part {
    // A part of which nothing is left.
    pub const NOTHING: Part = Part::Touches { page: 0, count: 0 };
}

/// What a command begins with.
pub enum Start<'a> {
    /// Events that are made in pieces.
    Part(Part),
    /// A commit, which is one event.
    Commit(&'a Commit),
}

// What a command begins with, under a cap.
pub fn start_of<'a>(cap: u32, command: Command<&'a Commit>) -> Start<'a>
    ensures { start_value result ≡ part_of cap (lent_value command.entry) }
{
    // The most steps that the arming or the finishing of a pass takes.
    let pass_limit = 2 * u64::from(cap) + 3;
    let part = match command {
        Command::Touch { page } => Part::Touches { page, count: 1 },
        Command::Sweep { from, to } => Part::Touches {
            page: from,
            count: to.saturating_sub(from),
        },
        Command::Step { times } => Part::Steps {
            until: Until::Count,
            most: u64::from(times),
        },
        Command::Arm => Part::Steps {
            until: Until::Armed,
            most: pass_limit,
        },
        Command::Finish => Part::Steps {
            until: Until::Idle,
            most: pass_limit,
        },
        Command::Show => Part::Show,
        Command::Commit { commit } => return Start::Commit(commit),
    };
    Start::Part(part)
}

// Whether no event of a part is left.
pub fn is_done(part: Part, phase: Phase) -> bool
    ensures { result ≡ is_done (part_value part) phase }
{
    match part {
        Part::Touches { count, .. } => count == 0,
        Part::Steps { until, most } => most == 0 || stops_at(until, phase),
        Part::Show => false,
    }
}

// Whether steps stop at a phase.
fn stops_at(until: Until, phase: Phase) -> bool
    ensures { result ≡ stops_at until phase }
{
    match until {
        Until::Count => false,
        Until::Armed => phase == Phase::Armed,
        Until::Idle => phase == Phase::Idle,
    }
}

// The page that a command touches, if it is a touch of a single page.
pub fn touched_page(command: Command<&Commit>) -> Option<u32>
    ensures { IfSome result (λ page. lent_value command.entry ≡ TouchCommand page) }
{
    match command {
        Command::Touch { page } => Some(page),
        _ => None,
    }
}

ghost use Rattle.std.specs.Prelude.{◌≡◌, ◌<◌, ◌^◌};
ghost use Rattle.script_lines.specs.Command.{command_value, weight};

use live_commit::Commit;

/// The most steps of one command.
pub const MAX_STEPS: u32 = 1_000_000;

/// One command of a script. `C` is how its commit is held: in a box, as it is read, since a commit has
/// room for a whole scheme; lent, as a list of commands returns it.
#[derive(Drop)]
pub enum Command<C = Box<Commit>> {
    /// One touch of the page.
    Touch { page: u32 },
    /// One touch of each page from `from` to before `to`, ascending.
    Sweep { from: u32, to: u32 },
    /// Steps of the monitor, from 1 to 1,000,000.
    Step { times: u32 },
    /// Steps until each pick of a pass is cleared (the phase Armed); none where it is already.
    Arm,
    /// Steps until no pass is under way (the phase Idle); none where it is already.
    Finish,
    /// One show: a line of the state, and a line for each region and each slot.
    Show,
    /// One commit.
    Commit { commit: C },
}

impl Command {
    /// The work of the command under a cap: its touches, or the most steps that it can make, or one
    /// for a show or a commit.
    pub fn weight(&self, cap: u32) -> u64
        ensures exact { result ≡ weight cap (command_value self.now) }
        ensures small { result < 2 ^ 34 }
    {
        match self {
            Command::Touch { .. } | Command::Show | Command::Commit { .. } => 1,
            Command::Sweep { from, to } => u64::from(to.saturating_sub(*from)),
            Command::Step { times } => u64::from(*times),
            // No more steps are needed to the phase that is wanted.
            Command::Arm | Command::Finish => 2 * u64::from(cap) + 3,
        }
    }
}

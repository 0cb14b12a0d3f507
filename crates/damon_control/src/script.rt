use crate::commands::Commands;
use live_commit::Setup;

/// The most work that the commands of a script may be in all.
pub const MAX_WORK: u64 = 16_777_216;

/// A script: the seed of its random words, what its monitor is started with, and its commands.
#[derive(Drop)]
pub struct Script {
    pub seed: u64,
    pub setup: Setup,
    pub commands: Commands,
}

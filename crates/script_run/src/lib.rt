//! What a script's commands mean on a world: their events, and the text that they cause.
#![tactic(auto)]

/// What the owner of a run adds to it.
mod callbacks;
/// What holds of the events of each script.
mod laws;
/// A command as far as it is left to make.
mod part;
/// A script that is played piece by piece.
mod player;
/// A script that is played to its end at once.
mod to_end;
/// What a world makes together with callbacks.
mod together;

pub use callbacks::{Callbacks, NoCallbacks};
pub use laws::{
    each_choice_is_best, each_run_with_callbacks_is_bound, each_script_is_bound, events_are_alone,
    passes_reach_their_phase, reports_are_text,
};
pub use player::{Player, open_player, open_player_with, open_waiting};
pub use to_end::play_to_end;

// A script that is played to its end at once.
ghost use Rattle.std.specs.Prelude.{◌≤◌, IfOk};
ghost use Rattle.damon_types.specs.Space.{pages_of};
ghost use Rattle.script_lines.specs.Command.{work_of};
ghost use Rattle.script_lines.specs.Limits.{AreCommandsWithin};
ghost use Rattle.damon_control.specs.ScriptView.{said_by};
ghost use Rattle.damon_core.specs.Stands.{Stands};
ghost use Rattle.script_run.specs.Report.{last_state};

use crate::callbacks::NoCallbacks;
use crate::player::{Player, open_player};
use damon_control::{MAX_WORK, Script};
use rand_pcg::Lcg64Xsh32;
use snapshot_print::Form;
use std::alloc::{AllocError, Global};
use text_io::Filled;

/// A player after the last event of a script, whose text is not kept. The pages of the commands are pages
/// of the script's space, and their work is at most [`MAX_WORK`]. Takes memory.
pub fn play_to_end(
    alloc: Global,
    script: Script,
) -> Result<Player<Lcg64Xsh32, NoCallbacks>, AllocError>
    requires within { AreCommandsWithin (pages_of script.setup.space) script.commands.list }
    requires work { work_of script.setup.cap script.commands.list ≤ MAX_WORK }
    ensures { IfOk result (λ p. Stands p.world.monitor (last_state (said_by script))) }
{
    let mut player = open_player(alloc, script, Form::Text)?;
    let mut unread = Vec::new(alloc);
    'pieces: loop {
        match player.fill(alloc, &mut unread)? {
            Filled::Piece => unread.clear(),
            Filled::End => return Ok(player),
        }
    }
}

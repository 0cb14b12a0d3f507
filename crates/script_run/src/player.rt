ghost use Rattle.std.specs.Prelude.{◌≡◌, ◌≢◌, ◌+◌, ◌<◌, ◌≤◌, ◌∷◌, [], Ok, IfOk, OnErr, OnOk, true, false, length, ℕ, List, vec_len};
ghost use Rattle.rand_core.specs.Steps.{stream_of, steps_u32};
ghost use Rattle.rand_pcg.specs.Pcg.{pcg32};
ghost use Rattle.damon_types.specs.Space.{pages_of};
ghost use Rattle.script_lines.specs.Command.{work_of};
ghost use Rattle.script_lines.specs.Limits.{AreCommandsWithin};
ghost use Rattle.damon_control.specs.ScriptView.{said_by};
ghost use Rattle.damon_core.specs.State.{opening};
ghost use Rattle.line_text.specs.Appended.{KeepsFront};
ghost use Rattle.script_run.specs.Part as left;
ghost use Rattle.script_run.specs.Parts.{is_done, parts_of};
ghost use Rattle.script_run.specs.Played.{BeginsWith, PlaysOnWith};
ghost use Rattle.script_run.specs.Player.{GoesOnWith, IsAt, IsOverWith, WritesSomeWith, left_moves};
ghost use Rattle.script_run.specs.RunWith.{start_with};
ghost use Rattle.script_run.specs.Way.{IsOnItsWay, IsOnItsWayWith};

/// The last line of a report.
mod last_line;
/// One command of a player after another.
mod one_command;
/// The report of a player as a text that is handed over.
mod source;

use crate::callbacks::{Callbacks, NoCallbacks};
use crate::part::{Part, Start, Until, is_done, start_of, touched_page};
use crate::together::{Printer, make_aggregation, make_commit, make_touches};
use damon_control::{Commands, MAX_WORK, Script};
use damon_core::Monitor;
use damon_world::{Jump, World};
use line_text::whole_or_nothing;
use live_commit::{Commit, Phase};
pub use one_command::open_waiting;
use rand_core::Rng;
use rand_pcg::Lcg64Xsh32;
use sampler::generator;
use snapshot_print::{Form, print_show};
use std::alloc::{AllocError, Global};
use std::marker::Model;
use text_io::{Filled, PIECE};

/// A script that is played piece by piece, with callbacks of who runs it.
#[derive(Drop)]
pub struct Player<R: Rng, C: Callbacks> {
    world: World<R>,
    callbacks: C,
    cap: u32,
    commands: Commands,
    form: Form,
    // What is left of the command under way.
    part: Part,
    // How many commands were begun.
    begun: u32,
}

impl<R: Rng, C: Callbacks> Model for Player<R, C> {
    ghost use Rattle.std.specs.Prelude.{◌∷◌, drop};
    ghost use Rattle.script_run.specs.Kept.{IsPlayer};
    ghost use Rattle.script_run.specs.Part.{part_value};
    ghost use Rattle.script_run.specs.Parts.{parts_of};
    ghost use Rattle.script_run.specs.Player.{PlayerOf};

    ghost Value = { PlayerOf R C };

    ghost view = { λ p. record {
      world = p.world;
      callbacks = p.callbacks;
      form = p.form;
      part = part_value p.part;
      later = parts_of p.cap (drop p.begun p.commands.list);
    } };

    ghost invariant = { λ p.
        IsPlayer R.stream C.stands_for p.world p.callbacks
        (part_value p.part ∷ parts_of p.cap (drop p.begun p.commands.list)) };
}

impl<R: Jump + Drop, C: Callbacks + Drop> Player<R, C> {
    /// Makes the next events and appends exactly their text to `out`, until `out` has [`PIECE`]
    /// bytes or more, or no event is left. Takes memory for the text. Where it runs out, a prefix of the
    /// text that was left was appended, and no more is known of the player.
    pub fn fill(&mut self, alloc: Global, out: &mut Vec<u8>) -> Result<Filled, AllocError>
        ensures on { OnOk result (GoesOnWith R.stream C.callbacks C.stands_for self.old self.new
            out.old.items out.new.items) }
        ensures piece { result ≡ Ok Filled.Piece → PIECE ≤ vec_len out.new }
        ensures end { result ≡ Ok Filled.End
            → IsOverWith R.stream C.callbacks C.stands_for self.new }
        ensures err { OnErr result (WritesSomeWith R.stream C.callbacks C.stands_for self.old
            out.old.items out.new.items) }

        // It comes nearer to the end of the script.
        ensures less { result ≡ Ok Filled.Piece → vec_len out.old < PIECE →
            left_moves self.new < left_moves self.old }
    {
        'moves: while out.len() < PIECE {
            if !self.go_on(alloc, out)? {
                return Ok(Filled::End);
            }
        }
        Ok(Filled::Piece)
    }

    // Makes the next events of a kind or begins the next command. False if no event is left.
    fn go_on(&mut self, alloc: Global, out: &mut Vec<u8>) -> Result<bool, AllocError>
        ensures on { OnOk result (GoesOnWith R.stream C.callbacks C.stands_for self.old self.new
            out.old.items out.new.items) }
        ensures less { result ≡ Ok true → left_moves self.new < left_moves self.old }
        ensures end { result ≡ Ok false → IsOverWith R.stream C.callbacks C.stands_for self.new }
        ensures err { OnErr result (out.new.items ≡ out.old.items) }
    {
        let before = out.len();
        let went = self.make_next(alloc, out);
        whole_or_nothing(out, before, went)
    }

    // The same, but that where memory runs out, some of the text may have been appended.
    fn make_next(&mut self, alloc: Global, out: &mut Vec<u8>) -> Result<bool, AllocError>
        ensures on { OnOk result (GoesOnWith R.stream C.callbacks C.stands_for self.old self.new
            out.old.items out.new.items) }
        ensures less { result ≡ Ok true → left_moves self.new < left_moves self.old }
        ensures end { result ≡ Ok false → IsOverWith R.stream C.callbacks C.stands_for self.new }
        ensures err { OnErr result (KeepsFront out.old.items out.new.items) }
    {
        let phase = self.world.monitor().phase();
        if is_done(self.part, phase) {
            self.touch_on();
            return self.begin_next(alloc, out);
        }
        self.play(alloc, out, phase)?;
        Ok(true)
    }

    // Makes the touches of single pages that come next. Scripts have many of them in a row.
    fn touch_on(&mut self)
        requires { is_done self.old.part self.old.world.monitor.core.phase ≡ true }
        ensures on { (text : List ℕ)
            → GoesOnWith R.stream C.callbacks C.stands_for self.old self.new text text }
        ensures done { is_done self.new.part self.new.world.monitor.core.phase ≡ true }
        ensures less { left_moves self.new ≤ left_moves self.old }
    {
        'touches: while self.touch_next() {}
    }

    // Makes the next command if it is a touch of a single page.
    fn touch_next(&mut self) -> bool
        requires { is_done self.old.part self.old.world.monitor.core.phase ≡ true }
        ensures on { (text : List ℕ)
            → GoesOnWith R.stream C.callbacks C.stands_for self.old self.new text text }
        ensures done { is_done self.new.part self.new.world.monitor.core.phase ≡ true }
        ensures less { result ≡ true → left_moves self.new < left_moves self.old }
        ensures same { result ≡ false → self.new ≡ self.old }
    {
        if self.begun >= self.commands.len() {
            return false;
        }
        let Some(page) = touched_page(self.commands.get(self.begun)) else {
            return false;
        };
        self.begun += 1;
        self.world.touch_page(page);
        self.callbacks.after_touches(page, 1);
        self.part = Part::NOTHING;
        true
    }

    // Makes the next events of the command under way, of which some are left. The phase is the monitor's.
    fn play(&mut self, alloc: Global, out: &mut Vec<u8>, phase: Phase) -> Result<(), AllocError>
        requires phase { phase ≡ self.old.world.monitor.core.phase }
        requires some { is_done self.old.part self.old.world.monitor.core.phase ≡ false }
        ensures on { OnOk result (PlaysOnWith R.stream C.callbacks C.stands_for self.old self.new
            out.old.items out.new.items) }
        ensures less { OnOk result (left_moves self.new < left_moves self.old) }
        ensures err { OnErr result (KeepsFront out.old.items out.new.items) }
    {
        match self.part {
            Part::Touches { page, count } => {
                self.touch(page, count);
                Ok(())
            }
            Part::Steps { until, most } if phase == Phase::Due => {
                self.aggregate(alloc, out, until, most)
            }
            Part::Steps { until, most } => {
                self.step(until, most);
                Ok(())
            }
            Part::Show => self.show(alloc, out),
        }
    }

    // Begins the next command. False if no command is left.
    fn begin_next(&mut self, alloc: Global, out: &mut Vec<u8>) -> Result<bool, AllocError>
        requires { is_done self.old.part self.old.world.monitor.core.phase ≡ true }
        ensures on { OnOk result (GoesOnWith R.stream C.callbacks C.stands_for self.old self.new
            out.old.items out.new.items) }
        ensures less { result ≡ Ok true → left_moves self.new < left_moves self.old }
        ensures end { result ≡ Ok false → IsOverWith R.stream C.callbacks C.stands_for self.new }
        ensures err { OnErr result (KeepsFront out.old.items out.new.items) }
    {
        if self.begun >= self.commands.len() {
            return Ok(false);
        }
        self.start(alloc, out)?;
        Ok(true)
    }

    // Begins the next command, which is there; a commit is made at once, with those that are put in after
    // it.
    fn start(&mut self, alloc: Global, out: &mut Vec<u8>) -> Result<(), AllocError>
        requires done { is_done self.old.part self.old.world.monitor.core.phase ≡ true }
        requires some { 1 ≤ length self.old.later }
        ensures on { OnOk result (BeginsWith R.stream C.callbacks C.stands_for self.old self.new
            out.old.items out.new.items) }
        ensures less { OnOk result (left_moves self.new < left_moves self.old) }
        ensures err { OnErr result (KeepsFront out.old.items out.new.items) }
    {
        // For its clause alone: the commands are fewer than 2^32.
        let _commands = self.commands.len();
        let start = start_of(self.cap, self.commands.get(self.begun));
        self.begun += 1;
        match start {
            Start::Part(part) => {
                self.part = part;
                Ok(())
            }
            Start::Commit(commit) => {
                self.part = Part::NOTHING;
                let form = self.form;
                make_commit(
                    Printer { alloc, form },
                    out,
                    &mut self.world,
                    &mut self.callbacks,
                    commit,
                )
            }
        }
    }

    // Makes all touches of a part.
    fn touch(&mut self, page: u32, count: u32)
        requires part { self.old.part ≡ left.Touches page count }
        requires some { 0 < count }
        ensures on { (text : List ℕ)
            → PlaysOnWith R.stream C.callbacks C.stands_for self.old self.new text text }
        ensures less { left_moves self.new < left_moves self.old }
    {
        make_touches(&mut self.world, page, count);
        self.callbacks.after_touches(page, count);
        self.part = Part::NOTHING;
    }

    // Makes the next steps of a kind, where no aggregation is due. It is kept apart from `fill`: inlined
    // there, the loops over picks run a seventh slower.
    #[inline(never)]
    fn step(&mut self, until: Until, most: u64)
        requires part { self.old.part ≡ left.Steps until most }
        requires some { is_done self.old.part self.old.world.monitor.core.phase ≡ false }
        requires between { self.old.world.monitor.core.phase ≢ Phase.Due }
        ensures on { (text : List ℕ)
            → PlaysOnWith R.stream C.callbacks C.stands_for self.old self.new text text }
        ensures less { left_moves self.new < left_moves self.old }
    {
        let made = self.world.advance(most);
        self.callbacks.after_steps();
        self.part = Part::Steps {
            until,
            most: most - made,
        };
    }

    // Makes the aggregation that is due, which is one step, and the commits that are put in after it, and
    // appends what they write.
    fn aggregate(
        &mut self,
        alloc: Global,
        out: &mut Vec<u8>,
        until: Until,
        most: u64,
    ) -> Result<(), AllocError>
        requires part { self.old.part ≡ left.Steps until most }
        requires some { is_done self.old.part self.old.world.monitor.core.phase ≡ false }
        requires due { self.old.world.monitor.core.phase ≡ Phase.Due }
        ensures on { OnOk result (PlaysOnWith R.stream C.callbacks C.stands_for self.old self.new
            out.old.items out.new.items) }
        ensures less { OnOk result (left_moves self.new < left_moves self.old) }
        ensures err { OnErr result (KeepsFront out.old.items out.new.items) }
    {
        self.part = Part::Steps {
            until,
            most: most - 1,
        };
        let form = self.form;
        make_aggregation(
            Printer { alloc, form },
            out,
            &mut self.world,
            &mut self.callbacks,
        )
    }

    // Appends the text of a show.
    fn show(&mut self, alloc: Global, out: &mut Vec<u8>) -> Result<(), AllocError>
        requires { self.old.part ≡ left.Show }
        ensures on { OnOk result (PlaysOnWith R.stream C.callbacks C.stands_for self.old self.new
            out.old.items out.new.items) }
        ensures less { left_moves self.new < left_moves self.old }
        ensures err { OnErr result (KeepsFront out.old.items out.new.items) }
    {
        self.part = Part::NOTHING;
        print_show(alloc, out, self.form, self.world.monitor())
    }

    /// The monitor, as it stands after the events so far.
    pub fn monitor(&self) -> &Monitor
        ensures { result.now ≡ self.now.world.monitor }
    {
        self.world.monitor()
    }
}

/// A player before the first event of a script. Its random words are those of the script's seed. The
/// pages of the commands are pages of the script's space, and their work is at most [`MAX_WORK`].
/// Takes memory.
pub fn open_player(
    alloc: Global,
    script: Script,
    form: Form,
) -> Result<Player<Lcg64Xsh32, NoCallbacks>, AllocError>
    requires within { AreCommandsWithin (pages_of script.setup.space) script.commands.list }
    requires work { work_of script.setup.cap script.commands.list ≤ MAX_WORK }
    ensures { IfOk result (λ p.
        IsOnItsWay (stream_of (steps_u32 pcg32)) (said_by script) form p []) }
{
    open_player_with(alloc, script, form, NoCallbacks)
}

/// The same with callbacks, which stand for the opening of the script's setup with what they remember first.
pub fn open_player_with<C: Callbacks + Drop>(
    alloc: Global,
    script: Script,
    form: Form,
    callbacks: C,
) -> Result<Player<Lcg64Xsh32, C>, AllocError>
    requires within { AreCommandsWithin (pages_of script.setup.space) script.commands.list }
    requires work { work_of script.setup.cap script.commands.list ≤ MAX_WORK }
    requires opening { C.stands_for callbacks (C.callbacks.first (opening (said_by script).setup))
        (opening (said_by script).setup) }
    ensures { IfOk result (λ p. IsOnItsWayWith (stream_of (steps_u32 pcg32)) C.callbacks
        C.stands_for (said_by script) form p []) }
{
    make_player(alloc, script, form, callbacks)
}

// The same player, of which all is known.
fn make_player<C: Callbacks + Drop>(
    alloc: Global,
    script: Script,
    form: Form,
    callbacks: C,
) -> Result<Player<Lcg64Xsh32, C>, AllocError>
    requires within { AreCommandsWithin (pages_of script.setup.space) script.commands.list }
    requires work { work_of script.setup.cap script.commands.list ≤ MAX_WORK }
    requires opening { C.stands_for callbacks (C.callbacks.first (opening (said_by script).setup))
        (opening (said_by script).setup) }
    ensures way { IfOk result (λ p. IsOnItsWayWith (stream_of (steps_u32 pcg32)) C.callbacks
        C.stands_for (said_by script) form p []) }
    ensures at { IfOk result (λ p. IsAt (stream_of (steps_u32 pcg32)) C.stands_for p
        (start_with C.callbacks (said_by script))) }
    ensures part { IfOk result (λ p. p.part ≡ left.Touches 0 0) }
    ensures later { IfOk result (λ p. p.later ≡ parts_of script.setup.cap script.commands.list) }
{
    // For its clauses alone: the ranges are in order.
    let _ranges = script.setup.ranges.len();
    // For its clauses alone: the commands are fewer than 2^32.
    let _commands = script.commands.len();
    // For its clauses alone: the targets are within their limits.
    let _targets = script.setup.space.targets();
    let world = World::without_tags(alloc, &script.setup, generator(script.seed))?;
    Ok(Player {
        world,
        callbacks,
        cap: script.setup.cap,
        commands: script.commands,
        form,
        part: Part::NOTHING,
        begun: 0,
    })
}

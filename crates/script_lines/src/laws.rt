// Laws of the definitions that the contracts cite: a line that is read says what was read, and a line
// that says something is read as that. These functions do nothing.
ghost use Rattle.std.specs.Prelude.{ℕ, List, [], ◌∷◌, ◌++◌, codes};
ghost use Rattle.std.specs.Fmt.{decimal};
ghost use Rattle.damon_types.specs.declared.range.RangeSpec.{RangeSpec};
ghost use Rattle.damon_types.specs.declared.space.Target.{Target};
ghost use Rattle.line_text.specs.Address.{spelled_address};
ghost use Rattle.script_lines.specs.Blocks.{passes_line};
ghost use Rattle.script_lines.specs.declared.setup.Frame.{Frame};
ghost use Rattle.script_lines.specs.Fields.{attrs_in, range_in};
ghost use Rattle.script_lines.specs.Head.{attrs_line, cap_line, one_target, range_line, seed_line, target_line, unit_line};
ghost use Rattle.script_lines.specs.Keys.{setting_of};
ghost use Rattle.script_lines.specs.Laws.{NamesActions, ReadsOnly, ReadsOnlyCommands, ReadsOnlyParts, ReadsOnlySchemes, ReadsOnlySweeps, ReadsOnlyTouches, ReadsOnlyWords};
ghost use Rattle.script_lines.specs.ReadBack.{LinesReadBack};
ghost use Rattle.script_lines.specs.SchemeLine.{SchemesAreSaid};
ghost use Rattle.script_lines.specs.Spelling.{spelled_attrs, spelled_range, spelled_setting, spelled_target};

/// The words after `attrs` and `range` that are accepted, in a setup and in a commit, are the
/// spelling of what is read from them.
pub fn fields_are_spelled()
    ensures attrs { ReadsOnly attrs_in (λ a. decimal a.min ∷ decimal a.max ∷ decimal a.aggr ∷ []) }
    ensures range { ReadsOnly range_in (λ r.
        decimal r.target ∷ spelled_address r.from ∷ spelled_address r.to ∷ decimal r.class ∷ []) }
{}

/// A line of a setup that is accepted is the spelling of what it says, and so is that of the passes.
pub fn setup_lines_are_spelled()
    ensures seed { ReadsOnly seed_line (λ n. codes "seed " ++ decimal n) }
    ensures unit { ReadsOnly unit_line (λ n. codes "unit " ++ decimal n) }
    ensures cap { ReadsOnly cap_line (λ n. codes "cap " ++ decimal n) }
    ensures attrs { (cap : ℕ) → ReadsOnly (attrs_line cap) spelled_attrs }
    ensures target { ReadsOnly one_target spelled_target }
    ensures targets { (before : List Target) → ReadsOnly (target_line before) spelled_target }
    ensures range { (f : Frame) (targets : List Target) (before : List RangeSpec)
        → ReadsOnly (range_line f targets before) spelled_range }
    ensures passes { ReadsOnly passes_line (λ n. codes "passes " ++ decimal n) }
{}

/// A line of a setup that gives a slot a scheme is the spelling of a slot, an action and settings in
/// order, which turn the action's default into that scheme. A word that is read as an action or a
/// setting is its spelling.
pub fn schemes_are_spelled()
    ensures actions { NamesActions }
    ensures settings { ReadsOnly setting_of spelled_setting }
    ensures schemes { ReadsOnlySchemes }
{}

/// A line whose settings, one after another, turn the action's default into a scheme says that scheme by
/// its keys, and a line that says a scheme by its keys has such settings.
pub fn schemes_are_said()
    ensures { SchemesAreSaid }
{}

/// A line of a body that is accepted says the command that is read from it. A line of a commit that
/// is accepted says the part that is read from it, and that part may come there. A line of one word is
/// that word.
pub fn body_lines_are_spelled()
    ensures words { ReadsOnlyWords }
    ensures commands { ReadsOnlyCommands }
    ensures touches { ReadsOnlyTouches }
    ensures sweeps { ReadsOnlySweeps }
    ensures parts { ReadsOnlyParts }
{}

/// Each line of a script that says something, with each number within its field and its limits, is
/// read as what it says. With `body_lines_are_spelled`, a line of a body is read as a command exactly
/// where it says that command, and a line of a commit likewise.
pub fn spelled_lines_are_read()
    ensures lines { LinesReadBack }
{}

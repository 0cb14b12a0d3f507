// Laws of the definitions that the contracts cite: a text is read as a script exactly where it says that
// script. These functions do nothing.
ghost use Rattle.damon_control.specs.LiveText.{LiveTextsAreRead};
ghost use Rattle.damon_control.specs.Sound.{ScriptsAreSound};
ghost use Rattle.damon_control.specs.Text.{TextsAreRead};
ghost use Rattle.damon_control.specs.WriteBack.{CommitsAreReadBack, LiveSetupsAreReadBack, SetupsAreReadBack};

/// A text is read as a script exactly where it says it, line by line, each within its limits: the
/// header, the lines of the setup, one for each scheme, `begin`, those of each command in order, and
/// `end`, each with its LF and nothing after the last.
pub fn texts_are_exactly_read()
    ensures texts { TextsAreRead }
{}

/// A text is read as a live script exactly where it says it: the header, the lines of the setup, the
/// passes, the workers, the controllers and `end`, each with its LF and nothing after the last, and all
/// of it within the limits.
pub fn live_texts_are_exactly_read()
    ensures texts { LiveTextsAreRead }
{}

/// A script that a text is read as is within its limits: those of a setup, whose ranges are in
/// order, of each command, whose pages are those of the targets, and of the work in all.
pub fn scripts_are_sound()
    ensures sound { ScriptsAreSound }
{}

/// What [`write_setup`](crate::write_setup) appends, in its place after the first line of a text of the
/// setup's version, is read as the same seed and setup: in a script before `begin`, in a live script
/// before `passes`. What follows is read as the body.
pub fn setups_are_read_back()
    ensures back { SetupsAreReadBack }
    ensures live { LiveSetupsAreReadBack }
{}

/// What [`write_commit`](crate::write_commit) appends, in its place between `commit` and `apply`, is
/// read as the same commit, from any line of a script's body on, and in a live script from any line of a
/// controller on. A commit with a cost or with the time of a quota is read in texts of version Two.
pub fn commits_are_read_back()
    ensures back { CommitsAreReadBack }
{}

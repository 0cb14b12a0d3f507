// What holds of generated scripts. The function does nothing.
ghost use Rattle.std.specs.Prelude.{ℕ};
ghost use Rattle.damon_control.specs.Sound.{IsSound};
ghost use Rattle.trace_gen.specs.Gen.{gen};

/// Each generated script is within the limits of scripts, though no text is read for it.
pub fn generated_scripts_are_sound()
    ensures { (n : ℕ) → IsSound (gen n) }
{}

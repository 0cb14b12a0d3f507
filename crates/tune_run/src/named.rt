use std::marker::Brand;

/// A name in types for the goals of a run, so that contracts of a type can speak of them.
pub trait Named {
    ghost use Rattle.std.specs.Prelude.{List};
    ghost use Rattle.quota_goal.specs.declared.goals.Goal.{Goal};

    ghost goals: { List Goal };
}

// The name that callers give. The proof of each call says whose goals it stands for.
impl Named for Brand {
    ghost use Rattle.std.specs.Prelude.{[]};

    ghost goals = { [] };
}

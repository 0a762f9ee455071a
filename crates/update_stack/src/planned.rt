//! An update that was planned.
use ks_base::Ranges;
use std::marker::Model;
use update_plan::Plan;

/// What an update would do, worked out for a system, so that it can be tried more than once. A clause sees it as its plan.
#[derive(Drop)]
pub struct Planned {
    pub(crate) plan: Plan,
    /// The ranges in which no thread may stand, by their lows.
    pub(crate) guarded: Ranges,
}

impl Model for Planned {
    ghost use Rattle.std.specs.List.Sorted.{IsPermutation};
    ghost use Rattle.update_plan.specs.declared.types.Plan.{Plan as PlanOf};

    ghost Value = { PlanOf };

    ghost view = { λ planned. planned.plan };

    ghost invariant = { λ planned. IsPermutation planned.plan.guarded planned.guarded };
}

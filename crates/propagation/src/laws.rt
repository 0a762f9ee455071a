//! That the sets of excluded and of forced items are the least ones that the rules lead to.
ghost use Rattle.std.specs.Prelude.{Bool, List};
ghost use Rattle.propagation.specs.Rounds.{Rules};
ghost use Rattle.propagation.specs.Least.{AreClosed, RoundsAreClosed, HaveAtLeast};

/// The items that don't remain, and the forced ones, are the least sets for which both rules hold: an item is excluded
/// where it doesn't match by itself or clashes with a forced one, and forced where all others of its section are
/// excluded. For they hold of these sets; and all sets that they hold of exclude and force at least as much.
pub fn sets_are_least<T>()
    ensures closed { (rules : Rules T) (all : List T) → RoundsAreClosed rules all }
    ensures least { (rules : Rules T) (all : List T) (excluded forced : T → Bool)
        → AreClosed rules all excluded forced → HaveAtLeast rules all excluded forced }
{}

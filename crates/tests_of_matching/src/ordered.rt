//! Whether choices stand in the order in which they are propagated.
ghost use Rattle.std.specs.Prelude.{◌≡◌, true, nat_lt};
ghost use Rattle.propagation.specs.Choices.{AreChoices};
ghost use Rattle.std.specs.List.{list_all};
ghost use Rattle.tests_of_matching.specs.Ordered.{rise, agree, agree_with, are_single, comes_before, stand_in_order};

use propagation::{Choice, Claim};

/// Whether a number is below each of some others.
fn is_below(one: u32, others: &[u32]) -> bool
    ensures { result ≡ list_all (nat_lt one) others.now }
{
    others.iter().all(|other| one < *other)
}

/// Whether each number is below all later ones.
#[tactic(auto, using(crate::proofs::OrderedLaws::rise_of), unfolding(crate::specs::Ordered::rise))]
fn rise(numbers: &[u32]) -> bool
    ensures { result ≡ rise numbers.now }
{
    match numbers {
        [] => true,
        [first, rest @ ..] => is_below(*first, rest) && rise(rest),
    }
}

/// Whether two claims don't give one unknown two values.
fn agree_with(one: &Claim, other: &Claim) -> bool
    ensures { result ≡ agree_with one.now other.now }
{
    one.unknown != other.unknown || one.value == other.value
}

/// Whether a claim agrees with each of some others.
fn agrees(one: &Claim, others: &[Claim]) -> bool
    ensures { result ≡ list_all (agree_with one.now) others.now }
{
    others.iter().all(|other| agree_with(one, other))
}

/// Whether no two claims give one unknown two values.
fn agree(claims: &[Claim]) -> bool
    ensures { result ≡ agree claims.now }
{
    claims.iter().all(|one| agrees(one, claims))
}

/// Whether the claims of each choice agree and the demands that it meets rise.
fn are_single(choices: &[Choice]) -> bool
    ensures { result ≡ are_single choices.now }
{
    choices.iter().all(|choice| agree(choice.claims.as_slice()) && rise(choice.met.as_slice()))
}

/// Whether a choice stands before another.
fn comes_before(one: &Choice, other: &Choice) -> bool
    ensures { result ≡ comes_before one.now other.now }
{
    one.section < other.section || (one.section == other.section && one.home < other.home)
}

/// Whether a choice stands before each of some others.
fn comes_first(one: &Choice, others: &[Choice]) -> bool
    ensures { result ≡ list_all (comes_before one.now) others.now }
{
    others.iter().all(|other| comes_before(one, other))
}

/// Whether each choice stands before all later ones.
#[tactic(auto, using(crate::proofs::OrderedLaws::order_of), unfolding(crate::specs::Ordered::stand_in_order))]
fn stand_in_order(choices: &[Choice]) -> bool
    ensures { result ≡ stand_in_order choices.now }
{
    match choices {
        [] => true,
        [first, rest @ ..] => comes_first(first, rest) && stand_in_order(rest),
    }
}

/// Whether some choices can be propagated.
pub(crate) fn are_choices(choices: &[Choice]) -> bool
    ensures { result ≡ true → AreChoices choices.now }
{
    are_single(choices) && stand_in_order(choices)
}

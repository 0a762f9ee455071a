//! Sections of which two candidates are left.
ghost use Rattle.run_pre_match.specs.Candidate.{Candidate};
ghost use Rattle.symbol_solve.specs.Solve.{twins};
ghost use Rattle.symbol_solve.specs.inside.Left.{IsOf};
ghost use Rattle.symbol_solve.specs.inside.Reported.{Refuses};

use crate::left::Held;
use ks_base::{Name, Refusal};
use std::alloc::Global;

/// Refuses two candidates that are left, if they are of one section.
pub(crate) fn check_apart(
    alloc: Global,
    one: &Held<'_, '_, '_>,
    other: &Held<'_, '_, '_>,
) -> Result<(), Refusal>
    ensures { (c d : Candidate) → IsOf one.now.code.now c one.now.tried.now
        → IsOf other.now.code.now d other.now.tried.now → Refuses result (twins c d) }
{
    if one.code.place() != other.code.place() {
        return Ok(());
    }
    let name = Name::from_slice(alloc, one.code.section().name.as_slice())?;
    Err(Refusal::Ambiguous {
        section: name,
        first: one.tried.home,
        second: other.tried.home,
    })
}

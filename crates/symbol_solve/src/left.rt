//! The candidates that are left.
ghost use Rattle.std.specs.Prelude.{◌≡◌, ◌<◌, All, List, Some, None, length, IfOk, OnOk, IfSome, IfNone};
ghost use Rattle.std.specs.List.{AllZip, slice_get};
ghost use Rattle.run_pre_match.specs.Candidate.{Candidate};
ghost use Rattle.symbol_solve.specs.inside.Left.{marked, IsOf, IsOneOf, Takes};

use match_candidates::Tried;
use run_pre_match::PreCode;
use std::alloc::{AllocError, Global};

/// A candidate, and the code of its section.
#[derive(Clone, Copy)]
pub(crate) struct Held<'h, 'n, 'a> {
    pub(crate) code: &'h PreCode<'n, 'a>,
    pub(crate) tried: &'h Tried,
}

/// Adds a candidate, if it has a mark.
fn take_one<'h, 'n, 'a>(
    codes: &'h [PreCode<'n, 'a>],
    tried: &'h Tried,
    mark: bool,
    held: &mut Vec<Held<'h, 'n, 'a>>,
) -> Result<(), AllocError>
    requires { tried.now.section < length codes.now }
    ensures { OnOk result (Takes (λ c h. IsOf h.code.now c h.tried.now)
        (IsOneOf codes.now) tried.now mark held.old.items held.new.items) }
{
    if mark {
        held.push(Held {
            code: &codes[tried.section],
            tried,
        })?;
    }
    Ok(())
}

/// The candidates that have a mark.
#[tactic(auto, using(crate::proofs::HeldLaws::all_held))]
pub(crate) fn marked<'h, 'n, 'a>(
    alloc: Global,
    codes: &'h [PreCode<'n, 'a>],
    tried: &'h [Tried],
    left: &[bool],
) -> Result<Vec<Held<'h, 'n, 'a>>, AllocError>
    requires within { All (λ t. t.section < length codes.now) tried.now }
    requires marks { length left.now ≡ length tried.now }
    ensures { IfOk result (λ held. (cs : List Candidate) → AllZip (IsOneOf codes.now) cs tried.now
        → AllZip (λ c h. IsOf h.code.now c h.tried.now) (marked left.now cs) held.items) }
{
    let mut held = Vec::new(alloc);
    for i in 0..tried.len() {
        take_one(codes, &tried[i], left[i], &mut held)?;
    }
    Ok(held)
}

/// The candidate at a place.
pub(crate) fn held_at<'h, 'n, 'a>(
    codes: &'h [PreCode<'n, 'a>],
    tried: &'h [Tried],
    place: usize,
) -> Option<Held<'h, 'n, 'a>>
    ensures some { IfSome result (λ h. (cs : List Candidate) → AllZip (IsOneOf codes.now) cs tried.now
        → (c : Candidate) × (slice_get cs place ≡ Some c) × IsOf h.code.now c h.tried.now) }
    ensures none { IfNone result
        ((cs : List Candidate) → AllZip (IsOneOf codes.now) cs tried.now → slice_get cs place ≡ None) }
{
    let tried = tried.get(place)?;
    let code = codes.get(tried.section)?;
    Some(Held { code, tried })
}

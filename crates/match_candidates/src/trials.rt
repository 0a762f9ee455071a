//! Candidates for code sections, each matched by itself.
ghost use Rattle.std.specs.Prelude.{◌≡◌, ◌≢◌, None, Some, IfOk, IfErr};
ghost use Rattle.ks_base.specs.declared.refusals.Refusal.TheVariants.{Memory};
ghost use Rattle.match_candidates.specs.Candidates.{code_sections, is_match};
ghost use Rattle.match_candidates.specs.OwnFaults.{own_fault, AreTried};

use crate::codes::{Codes, all_codes};
use crate::homes::all_homes;
use crate::running::Running;
use crate::trying::try_sections;
use i386_reloc::Normal;
use image_memory::Space;
use ks_base::Refusal;
use run_pre_match::{MatchFault, PreCode};
use std::alloc::Global;
use std::marker::Model;

/// One of the functions that a code section may be.
#[derive(Drop)]
pub struct Tried {
    /// Which of the object's code sections it may be, counted from 0.
    pub section: usize,
    /// The address of its first version.
    pub home: u32,
    /// Where its newest version begins.
    pub base: u32,
    /// How many bytes its running body has, or why it doesn't match. What a match says isn't kept: it takes memory for
    /// each reference, and [`outcome_of`](crate::outcome_of) gives it again.
    pub outcome: Result<u32, MatchFault>,
}

impl Tried {
    /// Whether it matches.
    pub fn matches(&self) -> bool
        ensures { result ≡ is_match self.now.outcome }
    {
        self.outcome.is_ok()
    }
}

/// The code sections of an object, and all that each may be, section by section and in each by home.
#[derive(Drop)]
pub struct Trials<'n, 'a> {
    codes: Codes<'n, 'a>,
    tried: Vec<Tried>,
}

impl<'n, 'a> Model for Trials<'n, 'a> {
    ghost use Rattle.match_candidates.specs.OwnFaults.{Trials};

    ghost Value = { Trials };

    ghost view = { λ t. record { codes = t.codes; tried = t.tried.items } };
}

impl<'n, 'a> Trials<'n, 'a> {
    /// The code sections.
    pub fn codes(&self) -> &[PreCode<'n, 'a>]
        ensures { result.now ≡ self.now.codes }
    {
        self.codes.as_slice()
    }

    /// What they may be.
    pub fn tried(&self) -> &[Tried]
        ensures { result.now ≡ self.now.tried }
    {
        self.tried.as_slice()
    }
}

/// Matches each function that a code section of an object may be by itself: those at the addresses of function symbols
/// of its function's name whose newest version is still there.
///
/// [`Refusal::PreUndecoded`] comes exactly where a code section can't be matched, with the first such section and the
/// least offset; otherwise [`Refusal::NoCandidate`] where there is no function that one may be, with the name of
/// the first such section's function; otherwise [`Refusal::Mismatch`] where one differs from every function that it may
/// be, with the first such section and the difference of the lowest home. [`Refusal::Memory`] comes only if memory runs
/// out.
pub fn try_all<'n, 'a, S: Space>(
    alloc: Global,
    object: &'n Normal<'a>,
    running: &Running<'_, S>,
) -> Result<Trials<'n, 'a>, Refusal>
    ensures codes { IfOk result (λ trials. trials.codes ≡ code_sections object.now) }
    ensures tried { IfOk result (λ trials. AreTried running.now object.now trials.tried) }
    ensures ok { IfOk result (λ _. own_fault running.now object.now ≡ None) }
    ensures refused { IfErr result (λ refusal. refusal ≢ Memory → own_fault running.now object.now ≡ Some refusal) }
{
    let codes = all_codes(alloc, object)?;
    let homes = all_homes(alloc, running, codes.as_slice())?;
    let tried = try_sections(alloc, running, codes.as_slice(), homes.as_slice())?;
    Ok(Trials { codes, tried })
}

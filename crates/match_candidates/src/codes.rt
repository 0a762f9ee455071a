//! The code sections of an object that is to be matched.
ghost use Rattle.std.specs.Prelude.{◌≡◌, ◌≢◌, ◌++◌, List, suc, None, Some, IfOk, IfErr, OnOk, ◌∷◌};
ghost use Rattle.std.specs.List.{slice_get};
ghost use Rattle.ks_base.specs.declared.refusals.Refusal.TheVariants.{Memory};
ghost use Rattle.i386_reloc.specs.declared.types.NormalSection.{NormalSection as Section};
ghost use Rattle.match_candidates.specs.Candidates.{code_from, code_sections};
ghost use Rattle.match_candidates.specs.OwnFaults.{undecoded_in, first_undecoded};
ghost use Rattle.match_candidates.specs.inside.Trying.{undecoded_from};

use i386_reloc::{Normal, NormalSection};
use ks_base::{ListOf, Name, Refusal};
use run_pre_match::{MatchFault, PreCode, PreObject};
use std::alloc::Global;

/// Code sections, in order.
pub(crate) type Codes<'n, 'a> = ListOf<PreCode<'n, 'a>>;

/// The code of the section at a place.
fn code_at<'n, 'a>(
    alloc: Global,
    object: &PreObject<'n, 'a>,
    section: &NormalSection<'_>,
    place: usize,
) -> Result<PreCode<'n, 'a>, Refusal>
    requires { slice_get object.now place ≡ Some section.now }
    ensures code { IfOk result (λ code. code ≡ record { object = object.now; place = place; section = section.now }) }
    ensures ok { IfOk result
        (λ _. undecoded_in (record { object = object.now; place = place; section = section.now }) ≡ None) }
    ensures refused { IfErr result (λ refusal. refusal ≢ Memory
        → undecoded_in (record { object = object.now; place = place; section = section.now }) ≡ Some refusal) }
{
    match object.code(alloc, place) {
        Ok(code) => Ok(code),
        Err(MatchFault::Undecoded(offset)) => {
            let name = Name::from_slice(alloc, section.name.as_slice())?;
            Err(Refusal::PreUndecoded(name, offset))
        }
        Err(MatchFault::Memory) => Err(Refusal::Memory),
        // The section's own code is never said to differ.
        Err(MatchFault::Differs(_)) => unreachable!(),
    }
}

/// Adds the section at a place, if it is one of code.
fn add_code<'n, 'a>(
    alloc: Global,
    object: &PreObject<'n, 'a>,
    section: &NormalSection<'_>,
    place: usize,
    codes: &mut Codes<'n, 'a>,
) -> Result<(), Refusal>
    requires { slice_get object.now place ≡ Some section.now }
    ensures codes { OnOk result ((rest : List Section) → codes.old ++ code_from object.now place (section.now ∷ rest)
        ≡ codes.new ++ code_from object.now (suc place) rest) }
    ensures ok { OnOk result ((rest : List Section) → undecoded_from object.now place (section.now ∷ rest)
        ≡ undecoded_from object.now (suc place) rest) }
    ensures refused { IfErr result (λ refusal. refusal ≢ Memory
        → (rest : List Section) → undecoded_from object.now place (section.now ∷ rest) ≡ Some refusal) }
{
    if !section.class.is_code() {
        return Ok(());
    }
    let code = code_at(alloc, object, section, place)?;
    codes.push(code)?;
    Ok(())
}

/// The code sections of an object, in order. [`Refusal::PreUndecoded`] comes with the first one that can't be matched.
pub(crate) fn all_codes<'n, 'a>(
    alloc: Global,
    object: &'n Normal<'a>,
) -> Result<Codes<'n, 'a>, Refusal>
    ensures codes { IfOk result (λ codes. codes ≡ code_sections object.now) }
    ensures ok { IfOk result (λ _. first_undecoded object.now ≡ None) }
    ensures refused { IfErr result (λ refusal. refusal ≢ Memory → first_undecoded object.now ≡ Some refusal) }
{
    let pre = PreObject::new(alloc, object)?;
    let mut codes = Codes::new(alloc);
    for (place, section) in object.as_slice().iter().enumerate() {
        add_code(alloc, &pre, section, place, &mut codes)?;
    }
    Ok(codes)
}

//! What the fields of a candidate say: the claims that they make, and the interiors of other code sections.
ghost use Rattle.std.specs.Prelude.{◌≡◌, ◌++◌, ◌∷◌, [], List, Some, OnOk, IfOk, map, option_to_list};
ghost use Rattle.std.specs.List.{filter_map, slice_get};
ghost use Rattle.run_pre_match.specs.Found.{Found};
ghost use Rattle.run_pre_match.specs.Matched.{spot_at, stated_in_constant, stated_from, name_at, unknown_of};
ghost use Rattle.run_pre_match.specs.Matched.{claim_of, interior_of, home_claim};
ghost use Rattle.run_pre_match.specs.inside.Kept.{Keeps};
ghost use Rattle.run_pre_match.specs.inside.Reached.{stated_in};

use crate::borrowed::{BorrowedSpot, BorrowedUnknown, UnknownKind};
use crate::candidate::Candidate;
use crate::goals::{Given, Goal};
use crate::types::{Claim, Claims, Interior, Interiors};
use crate::values::Values;
use i386_reloc::{NormalSection, Span};
use image_memory::Space;
use std::alloc::{AllocError, Global};

/// What some fields say, in the order of the fields.
#[derive(Drop)]
pub(crate) struct Said<'a> {
    pub(crate) claims: Claims<'a>,
    pub(crate) interiors: Interiors<'a>,
}

impl<'m, 'a, S: Space> Candidate<'m, 'a, S> {
    /// The name of the section at a place, empty where there is none.
    fn name_at(&self, place: usize) -> &'a [u8]
        ensures { result.now ≡ name_at self.now place }
    {
        match self.section(place) {
            Some(section) => section.name.as_slice(),
            None => &[],
        }
    }

    /// What a field claims the value of that goes to a goal: nothing of read-only sections, texts and interiors.
    fn unknown_of(&self, goal: &Goal<'a>) -> Option<BorrowedUnknown<'a>>
        ensures { result ≡ unknown_of self.now goal.now }
    {
        match goal {
            Goal::Entry(place) => {
                let name = self.name_at(*place);
                Some(BorrowedUnknown::new(UnknownKind::CodeSection, name))
            }
            Goal::Variable(place) => {
                let name = self.name_at(*place);
                Some(BorrowedUnknown::new(UnknownKind::DataSection, name))
            }
            Goal::Outside(name) => {
                let name = name.as_slice();
                Some(BorrowedUnknown::new(UnknownKind::OutsideName, name))
            }
            Goal::Inside { .. } => None,
            Goal::Constant(_) => None,
            Goal::Text { .. } => None,
        }
    }

    /// Adds what the field at an offset of a section claims.
    fn state_claim(
        &self,
        claims: &mut Claims<'a>,
        section: &Span<'a>,
        offset: u32,
        given: &Given<'a>,
    ) -> Result<(), AllocError>
        ensures { OnOk result (claims.new ≡ claims.old
            ++ option_to_list (claim_of self.now (record { spot = spot_at section.now offset; given = given.now }))) }
    {
        if let Some(unknown) = self.unknown_of(&given.goal) {
            claims.push(Claim {
                unknown,
                value: given.value,
                place: BorrowedSpot::new(section.as_slice(), offset),
            })?;
        }
        Ok(())
    }

    /// Adds the interior of another code section that the field at an offset of a section names.
    fn state_interior(
        &self,
        interiors: &mut Interiors<'a>,
        section: &Span<'a>,
        offset: u32,
        given: &Given<'a>,
    ) -> Result<(), AllocError>
        ensures { OnOk result (interiors.new ≡ interiors.old
            ++ option_to_list (interior_of self.now
            (record { spot = spot_at section.now offset; given = given.now }))) }
    {
        let Goal::Inside {
            place: other,
            offset: inside,
        } = &given.goal
        else {
            return Ok(());
        };
        if *other == self.place {
            return Ok(());
        }
        let interior = Interior {
            section: Span::new(self.name_at(*other)),
            offset: *inside,
            address: given.value.wrapping_add(*inside),
            place: BorrowedSpot::new(section.as_slice(), offset),
        };
        interiors.push(interior)
    }

    /// Adds what the field at an offset of a section says.
    pub(crate) fn state(
        &self,
        said: &mut Said<'a>,
        section: &Span<'a>,
        offset: u32,
        given: &Given<'a>,
    ) -> Result<(), AllocError>
        ensures claims { OnOk result (said.new.claims ≡ said.old.claims
            ++ option_to_list (claim_of self.now (record { spot = spot_at section.now offset; given = given.now }))) }
        ensures interiors { OnOk result (said.new.interiors ≡ said.old.interiors
            ++ option_to_list (interior_of self.now
            (record { spot = spot_at section.now offset; given = given.now }))) }
    {
        self.state_claim(&mut said.claims, section, offset, given)?;
        self.state_interior(&mut said.interiors, section, offset, given)
    }

    /// Adds what the fields of the section at a place say, where the section lies at a base.
    fn state_constant(
        &self,
        said: &mut Said<'a>,
        place: usize,
        section: &NormalSection<'a>,
        base: u32,
    ) -> Result<(), AllocError>
        requires { slice_get self.now.object place ≡ Some section.now }
        ensures claims { OnOk result (said.new.claims ≡ said.old.claims
            ++ filter_map (claim_of self.now) (map (stated_in_constant self.now section.now base) section.now.refs)) }
        ensures interiors { OnOk result (said.new.interiors ≡ said.old.interiors
            ++ filter_map (interior_of self.now)
            (map (stated_in_constant self.now section.now base) section.now.refs)) }
    {
        let refs = section.refs.as_slice();
        for k in 0..refs.len() {
            let r = &refs[k];
            let given = self.given_in_constant(place, k, base, r);
            self.state(said, &section.name, r.offset, &given)?;
        }
        Ok(())
    }

    /// Adds what the fields of the section at a place say, where it lies at a base: nothing where there is no section.
    fn state_reached(&self, said: &mut Said<'a>, place: usize, base: u32) -> Result<(), AllocError>
        ensures claims { OnOk result (said.new.claims ≡ said.old.claims
            ++ filter_map (claim_of self.now) (stated_in self.now base (slice_get self.now.object place))) }
        ensures interiors { OnOk result (said.new.interiors ≡ said.old.interiors
            ++ filter_map (interior_of self.now) (stated_in self.now base (slice_get self.now.object place))) }
    {
        match self.section(place) {
            Some(section) => self.state_constant(said, place, section, base),
            None => Ok(()),
        }
    }

    /// Adds what the fields of the read-only sections say for which values were found, in the order of the sections.
    pub(crate) fn state_constants(
        &self,
        said: &mut Said<'a>,
        values: &Values<'a>,
    ) -> Result<(), AllocError>
        ensures claims { OnOk result ((found : List Found) → Keeps self.now found values.now
            → said.new.claims ≡ said.old.claims
            ++ filter_map (claim_of self.now) (stated_from self.now found 0 self.now.object)) }
        ensures interiors { OnOk result ((found : List Found) → Keeps self.now found values.now
            → said.new.interiors ≡ said.old.interiors
            ++ filter_map (interior_of self.now) (stated_from self.now found 0 self.now.object)) }
    {
        for (place, first) in values.constants.iter() {
            self.state_reached(said, *place, first.value)?;
        }
        Ok(())
    }

    /// What is said before any field: the own home.
    pub(crate) fn home_said(&self, alloc: Global) -> Result<Said<'a>, AllocError>
        ensures claims { IfOk result (λ said. said.claims ≡ home_claim self.now ∷ []) }
        ensures interiors { IfOk result (λ said. said.interiors ≡ []) }
    {
        let name = self.section.name.as_slice();
        let mut claims = Claims::new(alloc);
        claims.push(Claim {
            unknown: BorrowedUnknown::new(UnknownKind::CodeSection, name),
            value: self.home,
            place: BorrowedSpot::new(name, 0),
        })?;
        Ok(Said {
            claims,
            interiors: Interiors::new(alloc),
        })
    }
}

//! The places of the instructions of a list.
ghost use Rattle.std.specs.Prelude.{◌≡◌, ◌++◌, ◌∷◌, [], ℕ, ◌<◌, ◌≤◌, true, false, nat_lt, nat_le, length, All, OnOk};
ghost use Rattle.std.specs.Prelude.{IfSome};
ghost use Rattle.std.specs.List.{slice_get, list_any, position};
ghost use Rattle.std.specs.List.Sorted.{IsStrictlyIncreasing, IsPartitionPoint};
ghost use Rattle.match_instructions.specs.Places.{AreBelow, with_place, is_place, number_in};

use std::alloc::{AllocError, Global};
use std::marker::Model;

/// The places of the instructions of a list: of the kept ones and of the padding, each ascending.
#[derive(Drop)]
pub struct Places {
    kept: Vec<u32>,
    padding: Vec<u32>,
}

impl Model for Places {
    ghost use Rattle.std.specs.List.Sorted.{IsStrictlyIncreasing};
    ghost use Rattle.match_instructions.specs.Places.{Places};

    ghost Value = { Places };

    ghost view = { λ p. record { kept = p.kept.items; padding = p.padding.items } };

    ghost invariant = { λ p. IsStrictlyIncreasing p.kept.items × IsStrictlyIncreasing p.padding.items };
}

impl Places {
    /// No places.
    pub(crate) fn new(alloc: Global) -> Self
        ensures none { result ≡ record { kept = []; padding = [] } }
        ensures below { (place : ℕ) → AreBelow place result }
    {
        Places {
            kept: Vec::new(alloc),
            padding: Vec::new(alloc),
        }
    }

    /// Puts the place of an instruction, kept or padding, after those before it.
    pub(crate) fn push(&mut self, place: u32, kept: bool) -> Result<(), AllocError>
        requires { AreBelow place self.old }
        ensures put { OnOk result (self.new ≡ with_place self.old place kept) }
        ensures below { OnOk result ((next : ℕ) → place < next → AreBelow next self.new) }
    {
        if kept {
            return push_above(&mut self.kept, place);
        }
        push_above(&mut self.padding, place)
    }

    /// How many instructions are kept.
    pub fn kept_count(&self) -> usize
        ensures { result ≡ length self.now.kept }
    {
        self.kept.len()
    }

    /// The place of the kept instruction of a number, counted from 0; `None` where there is no such one.
    pub fn kept_at(&self, number: usize) -> Option<u32>
        ensures place { result ≡ slice_get self.now.kept number }
        ensures low { IfSome result (λ place. number ≤ place) }
    {
        let place = self.nth_kept(number);
        // The places ascend.
        let _kept = &self.kept;
        place
    }

    fn nth_kept(&self, number: usize) -> Option<u32>
        ensures { result ≡ slice_get self.now.kept number }
    {
        self.kept.get(number).copied()
    }

    /// What a place stands for: where an instruction begins there, kept or padding, the number of the first kept one at
    /// or after it. `None` where none begins there, or no kept one follows.
    #[tactic(auto, unfolding(crate::specs::Places::number_in))]
    pub fn number_of(&self, place: u32) -> Option<u32>
        ensures { result ≡ number_in self.now place }
    {
        if is_among(&self.kept, place) || is_among(&self.padding, place) {
            return first_from(&self.kept, place);
        }
        None
    }
}

/// Puts a place after those before it.
fn push_above(places: &mut Vec<u32>, place: u32) -> Result<(), AllocError>
    requires below { All (λ k. k < place) places.old.items }
    requires order { IsStrictlyIncreasing places.old.items }
    ensures put { OnOk result (places.new.items ≡ places.old.items ++ place ∷ []) }
    ensures order { IsStrictlyIncreasing places.new.items }
{
    places.push(place)?;
    Ok(())
}

/// How many places stand before one.
fn count_before(places: &[u32], place: u32) -> usize
    requires { IsStrictlyIncreasing places.now }
    ensures within { result ≤ length places.now }
    ensures point { IsPartitionPoint (λ k. nat_lt k place ≡ true) (λ k. nat_lt k place ≡ false) places.now result }
{
    places.partition_point(|k| *k < place)
}

/// Whether a place is among others.
fn is_among(places: &[u32], place: u32) -> bool
    requires { IsStrictlyIncreasing places.now }
    ensures { result ≡ list_any (is_place place) places.now }
{
    let number = count_before(places, place);
    number < places.len() && places[number] == place
}

/// The number of the first place at or after one.
fn first_from(places: &[u32], place: u32) -> Option<u32>
    requires { IsStrictlyIncreasing places.now }
    ensures { result ≡ position (nat_le place) places.now }
{
    let number = count_before(places, place);
    if number < places.len() {
        return Some(number as u32);
    }
    None
}

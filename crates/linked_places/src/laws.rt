//! What linking is for matching.
ghost use Rattle.linked_places.specs.Solves.{PlacesAreAnswered, PlacesAreSolution};

use crate::holding::places_hold_sections;
use i386_reloc::sections_are_whole;
use ia32_decode::instructions_have_bytes;
use linked_code::{linked_code_runs_alike, sections_have_blank_fields};
use run_pre_match::agreeing_values_match;
use symbol_solve::{answer_is_only_solution, answers_tell_the_obstacle, refused_without_solution};

/// An object that was linked is found in its image: each of its code sections, taken to run at its own place, matches,
/// and no two clash. So the placement is a solution. It is said of an object whose functions have names, whose code can
/// be matched, and in which no instruction with a reference becomes padding.
pub fn placement_is_solution()
    ensures { PlacesAreSolution }
{
    // Nothing is done here: the laws say what stands at the places, that code there runs as it is written in the
    // object, and that where code and fields agree a candidate matches.
    sections_are_whole();
    instructions_have_bytes();
    agreeing_values_match();
    sections_have_blank_fields();
    linked_code_runs_alike();
    places_hold_sections();
}

/// What is answered for such an object in its image: the values of its placement, each a place of a section or the one
/// address of an outside name, or that of a section two candidates are left. No other refusal comes.
pub fn placement_is_answered()
    ensures { PlacesAreAnswered }
{
    // Nothing is done here: the same laws say that the placement is a solution, and those of solving that no other
    // solution is answered where there is one, and what is refused then.
    sections_are_whole();
    instructions_have_bytes();
    agreeing_values_match();
    sections_have_blank_fields();
    linked_code_runs_alike();
    places_hold_sections();
    refused_without_solution();
    answer_is_only_solution();
    answers_tell_the_obstacle();
}

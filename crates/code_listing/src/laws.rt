//! What holds of every listing.
ghost use Rattle.std.specs.Prelude.{◌≡◌, ◌≤◌, ◌<◌, ℕ};
ghost use Rattle.image_memory.specs.Contents.{Contents};
ghost use Rattle.match_instructions.specs.RunCode.{run_instruction_at};
ghost use Rattle.code_listing.specs.Lines.{end_line};
ghost use Rattle.code_listing.specs.Listing.{lines_by, listing};

use match_instructions::run_code_goes_on;

/// Below its end a listing is the line of the instruction at its address and then the listing from the end of that
/// instruction on, or the one line that says that no instruction stands there; at its end, or past it, it is its last
/// line. Each instruction has at least one byte, and so the number of lines that the definition allows never cuts a
/// listing short.
pub fn lines_follow_one_another()
    ensures below { (contents : Contents) (end address : ℕ) → address < end → listing contents end address
        ≡ lines_by address (run_instruction_at contents address) (listing contents end) }
    ensures end { (contents : Contents) (end address : ℕ) → end ≤ address → listing contents end address
        ≡ end_line address }
{
    // Nothing is done here: the law says that an instruction has bytes, and stands at its address.
    run_code_goes_on();
}

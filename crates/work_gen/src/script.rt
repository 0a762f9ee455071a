//! The script of a work.
ghost use Rattle.std.specs.Prelude.{◌≡◌, ◌++◌, codes, OnOk, IfOk};
ghost use Rattle.std.specs.List.{flat_map, range_with_len};
ghost use Rattle.work_gen.specs.Script.{files_of_update, update_lines, script_file};

use ks_base::{Bytes, Line};
use std::alloc::{AllocError, Global};

/// How many updates the script makes.
const UPDATES: u32 = 8;

/// The script of each work.
#[tactic(auto, using(crate::proofs::AppendLaws::append_laws), unfolding(crate::specs::Script::script_file))]
pub(crate) fn script_file(alloc: Global) -> Result<Bytes, AllocError>
    ensures { IfOk result (λ script. script ≡ script_file) }
{
    let mut script = Line::new(alloc);
    put_updates(&mut script)?;
    script.put_text(
        "undo\nundo\nundo\nspawn f0 0\nspawn f0 0\nspawn f0 0\nspawn f0 0\nrr 64 16777216\nthreads\nwatch\n",
    )?;
    Bytes::from_slice(alloc, script.bytes())
}

#[tactic(auto, using(crate::proofs::AppendLaws::count_laws))]
fn put_updates(script: &mut Line) -> Result<(), AllocError>
    ensures { OnOk result (script.new ≡ script.old ++ flat_map update_lines (range_with_len 0 8)) }
{
    for k in 0..UPDATES {
        put_update(script, k)?;
    }
    Ok(())
}

/// Appends the line of update `k`, with those that start threads before it and let them end after it.
#[tactic(auto, using(crate::proofs::AppendLaws::append_laws), unfolding(crate::specs::Script::update_lines, crate::specs::Script::update_line))]
fn put_update(script: &mut Line, k: u32) -> Result<(), AllocError>
    ensures { OnOk result (script.new ≡ script.old ++ update_lines k) }
{
    script.put_text("spawn f0 0\nspawn f0 0\nspawn f0 0\nspawn f0 0\nrr 1 100\napply u")?;
    script.put_number(u64::from(k))?;
    script.put_text(rest_of_update(k))
}

/// What stands behind the number of update `k`: updates of odd numbers lead back.
fn rest_of_update(k: u32) -> &'static str
    ensures { result.now ≡ codes " " ++ files_of_update k ++ codes " tries 16 gap 4096\nrr 64 16777216\n" }
{
    if k % 2 == 0 {
        " pre.o post.o tries 16 gap 4096\nrr 64 16777216\n"
    } else {
        " post.o pre.o tries 16 gap 4096\nrr 64 16777216\n"
    }
}

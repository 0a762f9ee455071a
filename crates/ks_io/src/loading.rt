//! Loading files one after another.
ghost use Rattle.std.specs.Prelude.{◌≡◌, ◌≢◌, ◌<◌, ◌∷◌, [], None, length, map, IfOk, IfErr, OnOk, IsErrOf};
ghost use Rattle.ks_io.specs.Kept.{FilesKept};
ghost use Rattle.ks_io.specs.Loads.{needed_by, outside_fault, CameTo, LoadsCameTo};

use crate::outside::Files;
use crate::types::{FileFault, Lost, Wanted};
use std::alloc::Global;

/// The bytes of the files that are wanted, loaded one after another up to the first that isn't loaded. The
/// answer is then which that is, and why: Memory also where its bytes could not be kept beside the others.
pub fn load_all<F: Files>(
    alloc: Global,
    files: &mut F,
    wanted: &[Wanted<'_>],
) -> Result<Vec<Vec<u8>>, Lost>
    ensures loads { LoadsCameTo
        (F.told files.old) (map needed_by wanted.now) (F.counts files.old) (F.counts files.new) result }
    ensures within { IfErr result (λ lost. lost.index < length wanted.now) }
    // Where all are loaded, and where memory ran out, nothing is counted.
    ensures steady { OnOk result (F.counts files.new ≡ F.counts files.old) }
    ensures memory { IfErr result (λ lost. lost.fault ≡ FileFault.Memory → F.counts files.new ≡ F.counts files.old) }
    ensures kept { FilesKept F.told F.counts F.quiet files.old files.new }
    ensures quiet { F.quiet files.old → IfErr result (λ lost. lost.fault ≢ FileFault.Failed) }
{
    let mut held = Vec::new(alloc);
    for (index, file) in wanted.iter().enumerate() {
        let bytes = match load_one(alloc, files, file) {
            Ok(bytes) => bytes,
            Err(fault) => return Err(Lost { index, fault }),
        };
        if let Err(_) = held.push(bytes) {
            let fault = FileFault::Memory;
            return Err(Lost { index, fault });
        }
    }
    Ok(held)
}

/// The bytes of a file, in no more room than they need.
fn load_one<F: Files>(alloc: Global, files: &mut F, file: &Wanted<'_>) -> Result<Vec<u8>, FileFault>
    ensures held { IfOk result (λ bytes. CameTo (F.told files.old)
        (needed_by file.now ∷ []) (bytes.items ∷ []) None (F.counts files.old) (F.counts files.new)) }
    ensures lost { IfErr result (λ fault. CameTo (F.told files.old)
        (needed_by file.now ∷ []) [] (outside_fault fault) (F.counts files.old) (F.counts files.new)) }
    ensures steady { OnOk result (F.counts files.new ≡ F.counts files.old) }
    ensures memory { IsErrOf result FileFault.Memory → F.counts files.new ≡ F.counts files.old }
    ensures kept { FilesKept F.told F.counts F.quiet files.old files.new }
    ensures quiet { F.quiet files.old → result ≢ Err FileFault.Failed }
{
    let mut bytes = Vec::new(alloc);
    files.load(file.name, file.limit, &mut bytes)?;
    bytes.shrink_to_fit();
    Ok(bytes)
}

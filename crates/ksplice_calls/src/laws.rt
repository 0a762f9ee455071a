//! What holds of the answers to every call.
ghost use Rattle.std.specs.Prelude.{◌≡◌, ◌≢◌, ◌⊎◌, ℕ, List, Option, Some, None};
ghost use Rattle.ks_io.specs.Loads.{Told, CameTo, LosesOne};
ghost use Rattle.ks_io.specs.Outside.{Counts, Rose};
ghost use Rattle.ks_io.specs.declared.types.FileFault.{FileFault};
ghost use Rattle.ksplice_calls.specs.Answer.{Answer, ComesOut, usage_answer};
ghost use Rattle.ksplice_calls.specs.Calls.{Answers, IsAnswer, failed_load, needed};
ghost use Rattle.ksplice_calls.specs.Promises.{RepliesSome, AllAreGiven, RepliesWhole, EndsWithFile, CountsTellOf};
ghost use Rattle.call_words.specs.Words.{Asked};

use extract_post::objects_have_one_extract;

/// Over given files, and where the outside fails the same load or none, a call has one answer, one output and one
/// status, unless memory runs out.
pub fn calls_have_one_answer()
    ensures { (files : List ℕ → Option (List ℕ))
        (asked : Option Asked) (held held' : List (List ℕ)) (lost lost' : Option FileFault)
        (before now before' now' : Counts) (one other : Answer)
        → CameTo (Some files) (needed asked held) held lost before now
        → CameTo (Some files) (needed asked held') held' lost' before' now'
        → failed_load held lost ≡ failed_load held' lost'
        → IsAnswer asked held lost one → IsAnswer asked held' lost' other
        → one.status ≢ 6 → other.status ≢ 6 → one ≡ other }
{
    // Nothing is done here: the law says that two objects have one extract.
    objects_have_one_extract();
}

/// What the status of a call tells of its words, its files and its output.
pub fn answers_tell()
    // Where the words have no reading the usage line comes out.
    ensures no_reading { (told : Told) (before now : Counts) (old new : Option (List ℕ)) (status : ℕ)
        → Answers None told before now old new status → ComesOut usage_answer old new status }

    // 0, 3 and 7 come only with the reply, for files within their limits.
    ensures replies { (asked : Option Asked)
        (told : Told) (before now : Counts) (old new : Option (List ℕ)) (status : ℕ)
        → Answers asked told before now old new status
        → (status ≡ 0) ⊎ (status ≡ 3) ⊎ (status ≡ 7) → RepliesSome asked told old new status }

    // Where the words have a reading, each file that the call needs is given, within its limit, and neither the files
    // nor the sink have a fault, the whole reply comes out with 0, 3 or 7, or memory runs out.
    ensures complete { (command : Asked) (files : List ℕ → Option (List ℕ)) (all : List (List ℕ))
        (before now : Counts) (old new : Option (List ℕ)) (status : ℕ)
        → Answers (Some command) (Some files) before now old new status → AllAreGiven (Some command) files all
        → (Rose before.faults now.faults → ⊥) → status ≢ 5
        → (status ≡ 6) ⊎ RepliesWhole command all old new status }

    // 4 comes only with the line of the first file that the call lacks, after the replies to the lines before it, and
    // the file's fault shows in its count.
    ensures file { (asked : Option Asked) (told : Told) (before now : Counts) (old new : Option (List ℕ))
        → Answers asked told before now old new 4 → EndsWithFile asked told before now old new }

    // Where the files are given, absences and excesses rise only for a file that the call needs.
    ensures rises { (asked : Option Asked)
        (files : List ℕ → Option (List ℕ)) (before now : Counts) (old new : Option (List ℕ)) (status : ℕ)
        → Answers asked (Some files) before now old new status → CountsTellOf asked files before now }

    // With any status the counts of the files stay, or the first file that the call lacks was lost for a fault of the
    // outside, which shows in them.
    ensures lost { (asked : Option Asked) (told : Told) (before now : Counts) (old new : Option (List ℕ)) (status : ℕ)
        → Answers asked told before now old new status → (now ≡ before) ⊎ LosesOne (needed asked) told before now }
{}

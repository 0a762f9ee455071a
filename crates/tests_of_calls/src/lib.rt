//! Tests of whole calls over files and a sink in memory, and of the real files: `ksplice_calls`; of the words of a call:
//! `call_words`; and of works: `work_gen`. They stand apart so that these are proved once, and not once more for their
//! tests.
#![tactic(auto)]

#[cfg(test)]
mod calls;
#[cfg(test)]
mod images;
#[cfg(test)]
mod objects;
#[cfg(test)]
mod real_files;
#[cfg(test)]
mod words;
#[cfg(test)]
mod works;

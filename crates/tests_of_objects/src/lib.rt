//! Tests of objects and their difference: `elf32_object`, `i386_reloc`, `section_equal`, `extract_post`, `link_post`.
//! They stand apart so that those crates are proved once, and not once more for their tests.
#![tactic(auto)]

#[cfg(test)]
mod extracts;
#[cfg(test)]
mod link_post_files;
#[cfg(test)]
mod linking;
#[cfg(test)]
mod normals;
#[cfg(test)]
mod objects;
#[cfg(test)]
mod placing;
#[cfg(test)]
mod sameness;
#[cfg(test)]
mod sections;

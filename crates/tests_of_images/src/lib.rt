//! Tests of symbols, memory, jumps, images and listings: `symbol_table`, `image_memory`, `paged_memory`, `splice_jump`,
//! `image_file`, `code_listing`.
//! They stand apart so that those crates are proved once, and not once more for their tests.
#![tactic(auto)]

#[cfg(test)]
mod images;
#[cfg(test)]
mod jumps;
#[cfg(test)]
mod listings;
#[cfg(test)]
mod memory;
#[cfg(test)]
mod pages;
#[cfg(test)]
mod symbols;

//! Tests of instructions, steps and threads: `ia32_alu`, `ia32_decode`, `ia32_step`, `image_threads`, `stack_scan`,
//! `frame_watch`. They stand apart so that those crates are proved once, and not once more for their tests.
#![tactic(auto)]

#[cfg(test)]
mod arithmetic;
#[cfg(test)]
mod decoding;
#[cfg(test)]
mod flags;
#[cfg(test)]
mod scanning;
#[cfg(test)]
mod steps;
#[cfg(test)]
mod threads;
#[cfg(test)]
mod watching;
#[cfg(test)]
mod wide_forms;

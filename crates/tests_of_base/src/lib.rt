//! Tests of the base, the outside, scripts and graphs: `ks_base`, `ks_io`, `script_lines`, `reachability`.
//! They stand apart so that those crates are proved once, and not once more for their tests.
#![tactic(auto)]

#[cfg(test)]
mod graphs;
#[cfg(test)]
mod lists;
#[cfg(test)]
mod outside;
#[cfg(test)]
mod scripts;

//! Tests of matching: `run_pre_match`, `propagation`, `match_candidates` and `symbol_solve`. They stand apart so that
//! these are proved once, and not once more for their tests. What `match` shows of a program is in tests/worked.
#![tactic(auto)]

#[cfg(test)]
mod bodies;
#[cfg(test)]
mod choosing;
#[cfg(test)]
mod later_calls;
#[cfg(test)]
mod ordered;
#[cfg(test)]
mod programs;
#[cfg(test)]
mod trying;

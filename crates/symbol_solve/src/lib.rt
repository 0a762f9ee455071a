//! Solving: which functions of a running program the code sections of an object are, and what that makes of the
//! addresses that it refers to.
#![tactic(auto)]

mod choices;
mod first_claims;
mod laws;
mod left;
mod numbers;
mod points;
mod propagated;
mod ranges;
mod report;
mod solving;
mod twins;
mod values;

pub use laws::{
    alike_programs_have_one_answer, answer_is_only_assignment, answer_is_only_solution,
    answers_tell_each_body, answers_tell_the_obstacle, refused_without_solution,
    solutions_assign_addresses,
};
pub use solving::solve;

// The words of the planner that are no counts: places and refusals.
#![tactic(auto)]

pub mod place;
pub mod refusal;

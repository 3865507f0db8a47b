// Number laws: they know nothing of pipelines.
#![tactic(auto)]

pub mod common;
pub mod extreme;
pub mod fraction;
pub mod quotient;

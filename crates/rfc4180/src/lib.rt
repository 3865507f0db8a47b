// Texts of comma-separated values, as RFC 4180 has them: records and their fields, and numbers in plain decimal.
#![tactic(auto)]

pub mod bytes;
pub mod decimal;
pub mod record;
pub mod writing;

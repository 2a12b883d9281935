// A question by itself (RULES.md 7): what it asks for, whether that passes, and its answer as the type of the question.
#![tactic(auto)]

pub mod reading;
pub mod tests;
pub mod types;

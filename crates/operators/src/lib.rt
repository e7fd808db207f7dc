// The operators that need no entities, on values as they stand in memory: each answers what the definitions say.
#![tactic(auto)]

pub mod arithmetic;
pub mod errors;
pub mod like;
pub mod logic;
pub mod sets;
#[cfg(test)]
mod tests;

pub use errors::EvalError;

// Values as they stand in memory: their order, sets and records that are made on the way, and that stored rows are the values that they were made from.
#![tactic(auto)]

mod making;
pub mod memory;
pub mod nodes;
pub mod ordering;
pub mod records;
pub mod search;
pub mod sets;
#[cfg(test)]
mod tests;
pub mod texts;

ghost use Rattle.values.specs.Making.{WorkGrows};
ghost use Rattle.values.specs.Stored.{RowsMean};

pub use memory::Memory;
pub use nodes::Value;

// A canonical value whose row lies anywhere in a memory is good there, and is that value.
pub fn rows_mean()
    ensures { RowsMean }
{}

// As the work memory grows, values keep their meaning.
pub fn work_grows()
    ensures { WorkGrows }
{}

// Reads calls off bytes.
#![tactic(auto)]

pub mod count;
pub mod ends;
pub mod grammar;
pub mod order;
pub mod scan;
pub mod value_kind;

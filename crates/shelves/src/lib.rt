// Items that lie in memory one after the other in the order of their keys: where one is, and what moves as one comes or goes.
#![tactic(auto)]

pub mod finding;
pub mod moving;
pub mod table;

ghost use Rattle.shelves.specs.Mapped.{KeysCarryOver};

pub use finding::{Entry, Extent, Spot};
pub use moving::Splice;
pub use table::Table;

// What is kept by keys can be spoken of as rows or as the trees that the rows are of: both have the same keys.
pub fn keys_carry_over()
    ensures { KeysCarryOver }
{}

// The store: rows of policies and entities in one lent memory, in the order of their keys, with what is kept of them.
#![tactic(auto)]

pub mod entities;
pub mod layout;
pub mod policies;
pub mod schema;

ghost use Rattle.store.specs.Sections.{MemoryNeverRunsOut};
ghost use Rattle.store.specs.Trees.{TreesAreItems};

// What a store within its capacity takes, and the table of its entities, fit into its memory.
pub fn memory_never_runs_out()
    ensures { MemoryNeverRunsOut }
{}

// A store of trees stands in memory as items, and what a call changes in the one it changes in the other.
pub fn trees_are_items()
    ensures { TreesAreItems }
{}

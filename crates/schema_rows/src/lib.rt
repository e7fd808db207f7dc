// Look-ups in a schema, as its rows lie in the store.
#![tactic(auto)]

pub mod entries;
pub mod lists;
pub mod schemas;

ghost use Rattle.schema_rows.specs.Schemas.{SchemaRowsMean};

pub use entries::{Action, Entry};
pub use schemas::Schema;

// The row of a schema that was taken is that schema, wherever it lies in the store.
pub fn schema_rows_mean()
    ensures { SchemaRowsMean }
{}

// Types as they stand in memory: those of the schema by the places of their rows, those that are made on the way in work memory; and the least type above two.
#![tactic(auto)]

pub mod attributes;
pub mod joining;
pub mod matching;
pub mod nodes;

ghost use Rattle.types.specs.Matching.{RulesTell};
ghost use Rattle.types.specs.Stored.{TypeRowsMean, TypesStay};

pub use nodes::{BoolType, CedarType, RecordPlace};

// Two types have a least type above them, one is below the other, they are the same: just if they match by the rule of that name.
pub fn rules_tell()
    ensures { RulesTell }
{}

// What has the row of a type is that type, wherever the row lies in the store.
pub fn type_rows_mean()
    ensures { TypeRowsMean }
{}

// Types keep their meaning whatever is made before them and behind them.
pub fn types_stay()
    ensures { TypesStay }
{}

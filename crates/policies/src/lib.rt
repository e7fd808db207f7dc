// Policies as they stand in rows: what is read of them, and whom they are about.
#![tactic(auto)]

pub mod reading;
pub mod scopes;

ghost use Rattle.policies.specs.Meaning.{PolicyRowsMean};

pub use reading::{Effect, Policy, Scope};

// The row of a policy that lies anywhere in a memory is good there, and is that policy.
pub fn policy_rows_mean()
    ensures { PolicyRowsMean }
{}

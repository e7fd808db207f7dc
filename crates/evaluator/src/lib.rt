// What expressions come to, on rows: exactly what the definitions say.
#![tactic(auto)]

pub mod apply;
pub mod expressions;
mod running;

pub use entities::Env;

// Entities and requests as they stand in memory: looked up by name, and asked for what they have and what they are in.
#![tactic(auto)]

pub mod attributes;
pub mod env;
pub mod lookup;
pub mod membership;
pub mod places;
pub mod requests;
pub mod tags;
#[cfg(test)]
mod tests;

ghost use Rattle.entities.specs.Meaning.{EntitiesMean, RequestMeans, RequestGrows};

pub use env::{Env, EnvView};
pub use requests::{Request, Subject};

// Rows of entities that lie where the table says, of entities in order, are good and are these entities.
pub fn entities_mean()
    ensures { EntitiesMean }
{}

// The row of a request that lies anywhere in a memory is good there, and is that request.
pub fn request_means()
    ensures { RequestMeans }
{}

// As the work memory grows, a request keeps its meaning.
pub fn request_grows()
    ensures { RequestGrows }
{}

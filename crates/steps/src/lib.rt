// The heads of the classes and the direct steps between them.
#![tactic(auto)]

mod direct;
mod heads;
mod thirds;

pub use heads::Heads;
pub use thirds::{StepsFrom, find_thirds};

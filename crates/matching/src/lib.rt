// How a newcomer executes against the resting orders that it meets. Written once for both sides.
#![tactic(auto)]

pub mod execution;
pub mod meeting;
pub mod placing;
pub mod walk;

// What the engine holds, and the one way by which what members can see is changed and told.
#![tactic(auto)]

pub mod announcement;
pub mod change;
pub mod count;
pub mod market;
pub mod publish;
pub mod replies;
pub mod time;
pub mod withdraw;

// The rules of the day: its phases, what is loaded, how an order is judged, and why a call is refused.
#![tactic(auto)]

pub mod fault;
pub mod keys;
pub mod loading;
pub mod phase;
pub mod reasons;
pub mod register;
pub mod table;
pub mod tables;
pub mod ticks;

// What an account's message does: an order is entered, replaced or canceled.
#![tactic(auto)]

pub mod answer;
pub mod cancel;
pub mod enter;
mod number;
pub mod replace;

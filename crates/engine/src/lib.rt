// The engine: its calls, each as an equation with what it does to what the engine holds.
#![tactic(auto)]

pub mod begin;
mod books;
pub mod calls;
mod checks;
pub mod collect;
pub mod count;
pub mod drop;
pub mod engine;
pub mod event;
pub mod loading;
pub mod make;
pub mod message;
pub mod output;
pub mod reference;
pub mod state;

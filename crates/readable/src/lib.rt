// What the host sends, as lines that can be read.
#![tactic(auto)]

mod bytes;
mod figures;
pub mod line;
pub mod messages;
pub mod packet;
mod rate;
mod replies;
pub mod stream;
pub mod time;
mod words;

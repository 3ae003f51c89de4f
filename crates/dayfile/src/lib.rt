// The day file: its records, each read from bytes and handed to the engine as a call.
#![tactic(auto)]

pub mod command;
pub mod packet;
pub mod playing;
pub mod stream;
pub mod taking;

// A record of the day file, handed to the engine.
ghost use Rattle.std.specs.Prelude.{◌≡◌};
ghost use Rattle.engine.specs.Calls.{outcome};
ghost use Rattle.dayfile.specs.Taking.{called, filed, record_taken, Unmoved};

use crate::command::Command;
use engine::calls::Exchange;
use rules::fault::{Fault, FileFault};

// The call that a command makes.
pub fn apply<E: Exchange>(exchange: &mut E, command: Command) -> Result<(u64, u64), Fault>
    ensures { outcome result (E.host exchange.new) ≡ called (E.host exchange.old) command }
{
    match command {
        Command::Row(row) => exchange.load_row(row),
        Command::Book(book) => exchange.load_book(book),
        Command::Account(name) => exchange.load_account(name),
        Command::Begin { time } => exchange.begin(time),
        Command::Event { time, letter } => exchange.event(time, letter),
        Command::State { time, code, letter } => exchange.state(time, code, letter),
        Command::Reference { time, code, rate } => exchange.reference(time, code, rate),
        Command::Drop { time, account } => exchange.drop_account(time, account),
    }
}

// The first record of the bytes: read, and called. A fault leaves the host as it was.
pub fn take_record<E: Exchange>(exchange: &mut E, bytes: &[u8]) -> Result<(u64, u64), FileFault>
    ensures taken { filed result (E.host exchange.new) ≡ record_taken (E.host exchange.old) bytes.now }
    ensures kept { Unmoved result (E.host exchange.old) (E.host exchange.new) }
{
    let command = Command::read(bytes)?;
    Ok(apply(exchange, command)?)
}

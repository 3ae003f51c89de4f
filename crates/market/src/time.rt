// A time is nanoseconds past midnight, of one day. The feed tells it in two parts.
ghost use Rattle.std.specs.Prelude.{◌≡◌, ◌<◌, OkIff};
ghost use Rattle.market.specs.Changes.{second_of, nanos_of};
ghost use Rattle.rules.specs.declared.fault.Fault.TheVariants.{Time as bad_time};

use rules::fault::Fault;
use std::marker::Model;

const NANOS_PER_SECOND: u64 = 1_000_000_000;

// The nanoseconds of a day: every time is below them.
pub const DAY_NANOS: u64 = 86_400 * NANOS_PER_SECOND;

#[derive(Clone, Copy, PartialEq, Eq, PartialOrd, Ord)]
pub struct Time {
    nanos: u64,
}

impl Model for Time {
    ghost use Rattle.std.specs.Prelude.{ℕ, ◌<◌};

    ghost Value = { ℕ };

    ghost view = { λ t. t.nanos };

    ghost invariant = { λ t. t.nanos < 86400000000000 };

    ghost inverse = { λ n. record { nanos = n } };
}

// A number that is no time: it is past the end of the day.
#[derive(Clone, Copy)]
pub struct NotOfDay;

impl TryFrom<u64> for Time {
    type Error = NotOfDay;

    ghost try_from_gives = { λ n r. OkIff r (n < 86400000000000) n };

    fn try_from(nanos: u64) -> Result<Time, NotOfDay> {
        if nanos < DAY_NANOS {
            Ok(Time { nanos })
        } else {
            Err(NotOfDay)
        }
    }
}

impl From<Time> for u64 {
    ghost from_gives = { λ t r. r ≡ t };

    fn from(time: Time) -> u64 {
        time.nanos
    }
}

impl From<NotOfDay> for Fault {
    ghost from_gives = { λ _ r. r ≡ bad_time };

    fn from(_: NotOfDay) -> Fault {
        Fault::Time
    }
}

// The second of the day.
pub fn second_of(time: u64) -> u64
    ensures { result ≡ second_of time }
{
    time / NANOS_PER_SECOND
}

// The nanoseconds past the second.
pub fn nanos_of(time: u64) -> u32
    ensures { result ≡ nanos_of time }
{
    (time % NANOS_PER_SECOND) as u32
}

impl Time {
    pub fn second(self) -> u32
        ensures { result ≡ second_of self }
    {
        second_of(self.nanos) as u32
    }

    pub fn nanos(self) -> u32
        ensures { result ≡ nanos_of self }
    {
        nanos_of(self.nanos)
    }
}

// The time of a message: of the feed's, the second of the day that the last seconds message told, and the nanoseconds since
// then; of a reply, whole.
ghost use Rattle.std.specs.Prelude.{◌≡◌, ◌^◌, ◌<◌, Some};
ghost use Rattle.readable.specs.Times.{time_of_day, Tells, clock_text, second_text, moment_text, time_text};

use std::fmt;

const MINUTE: u64 = 60;

const HOUR: u64 = 60 * MINUTE;

// In nanoseconds. Said here too: the reader stands on the messages alone.
const SECOND: u64 = 1_000_000_000;

// A second of the day, by the clock.
#[derive(Clone, Copy)]
pub struct TimeOfDay {
    hours: u32,
    minutes: u32,
    seconds: u32,
}

impl TimeOfDay {
    pub fn of(second: u64) -> TimeOfDay
        requires { second < 2 ^ 35 }
        ensures value { result ≡ time_of_day second }
        ensures told { Tells second result }
    {
        TimeOfDay {
            hours: (second / HOUR) as u32,
            minutes: (second % HOUR / MINUTE) as u32,
            seconds: (second % MINUTE) as u32,
        }
    }
}

impl fmt::Display for TimeOfDay {
    ghost output = { λ t. Some (clock_text t) };

    #[tactic(auto, using(crate::proofs::Places::zero_padded))]
    fn fmt<W: fmt::Write>(&self, f: &mut fmt::Formatter<W>) -> fmt::Result {
        write!(
            f,
            "{:02}:{:02}:{:02}",
            self.hours, self.minutes, self.seconds
        )
    }
}

// The second that was told, where one was.
#[derive(Clone, Copy)]
pub struct Second(pub Option<u32>);

impl fmt::Display for Second {
    ghost output = { λ s. Some (second_text s.0) };

    fn fmt<W: fmt::Write>(&self, f: &mut fmt::Formatter<W>) -> fmt::Result {
        match self.0 {
            Some(second) => write!(f, "{}", TimeOfDay::of(u64::from(second))),
            None => write!(f, "--:--:--"),
        }
    }
}

// A second and the nanoseconds since then.
#[derive(Clone, Copy)]
pub struct Moment(pub Second, pub u32);

impl fmt::Display for Moment {
    ghost output = { λ m. Some (moment_text m.0.0 m.1) };

    #[tactic(auto, using(crate::proofs::Places::zero_padded))]
    fn fmt<W: fmt::Write>(&self, f: &mut fmt::Formatter<W>) -> fmt::Result {
        write!(f, "{}.{:09}", self.0, self.1)
    }
}

// Nanoseconds past midnight.
#[derive(Clone, Copy)]
pub struct Time(pub u64);

impl fmt::Display for Time {
    ghost output = { λ t. Some (time_text t.0) };

    #[tactic(auto, using(crate::proofs::Places::zero_padded))]
    fn fmt<W: fmt::Write>(&self, f: &mut fmt::Formatter<W>) -> fmt::Result {
        let second = TimeOfDay::of(self.0 / SECOND);
        let nanos = self.0 % SECOND;
        write!(f, "{second}.{nanos:09}")
    }
}

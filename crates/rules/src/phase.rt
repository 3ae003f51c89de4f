// The phases of a day: where an event leads, and which calls may run.
ghost use Rattle.std.specs.Prelude.{◌≡◌, is_some};
ghost use Rattle.std.specs.Option.{unwrap_or};
ghost use Rattle.rules.specs.Phases.{step, is_loading, takes_messages, is_running, has_begun, in_session, is_done};

#[derive(Clone, Copy, PartialEq, Eq)]
pub enum Phase {
    // rows, books and accounts are being loaded
    Loading,
    // the feed has told what is loaded
    Told,
    // system hours, outside a session
    Open,
    // a trading session
    Session,
    // after system hours
    Shut,
    // after the last message of the day
    Done,
}

impl Phase {
    // Goes where the letter of an event leads, and says whether it leads anywhere. The phase moves in place: a test asks a
    // copy of it.
    pub fn step(&mut self, letter: u8) -> bool
        ensures answer { result ≡ is_some (step self.old letter) }
        ensures after { self.new ≡ unwrap_or (step self.old letter) self.old }
    {
        *self = match (*self, letter) {
            (Phase::Loading, b'O') => Phase::Told,
            (Phase::Told, b'S') => Phase::Open,
            (Phase::Open, b'Q') => Phase::Session,
            (Phase::Session, b'M') => Phase::Open,
            (Phase::Open, b'E') => Phase::Shut,
            (Phase::Shut, b'C') => Phase::Done,
            _ => return false,
        };
        true
    }

    // Whether the letter of an event leads anywhere.
    pub fn takes(self, letter: u8) -> bool
        ensures { result ≡ is_some (step self letter) }
    {
        let mut phase = self;
        phase.step(letter)
    }

    // Whether rows, books and accounts can be loaded, and the day can begin.
    pub fn is_loading(self) -> bool
        ensures { result ≡ is_loading self }
    {
        matches!(self, Phase::Loading)
    }

    // Whether accounts can send messages.
    pub fn takes_messages(self) -> bool
        ensures { result ≡ takes_messages self }
    {
        matches!(self, Phase::Open | Phase::Session | Phase::Shut)
    }

    // Whether accounts can be dropped, events can happen, and states and references can be set.
    pub fn is_running(self) -> bool
        ensures { result ≡ is_running self }
    {
        matches!(
            self,
            Phase::Told | Phase::Open | Phase::Session | Phase::Shut
        )
    }

    // Whether a snapshot can be taken.
    pub fn has_begun(self) -> bool
        ensures { result ≡ has_begun self }
    {
        !self.is_loading()
    }

    // Whether orders can be entered and replaced.
    pub fn in_session(self) -> bool
        ensures { result ≡ in_session self }
    {
        matches!(self, Phase::Session)
    }

    // Whether the last event of the day was sent.
    pub fn is_done(self) -> bool
        ensures { result ≡ is_done self }
    {
        matches!(self, Phase::Done)
    }
}

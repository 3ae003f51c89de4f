// Event: the day moves on, and the feed tells it.
ghost use Rattle.std.specs.Prelude.{◌≡◌, Some};
ghost use Rattle.engine.specs.Calls.{unless, event_fault, event_done, day_event, informed, happened};

use crate::checks::refuse_if;
use crate::engine::Engine;
use fields::letters::Event;
use line::line::Line;
use market::change::Change;
use market::time::Time;
use ouch::letters::DayEvent;
use ouch::replies::SystemEvent;
use ouch::reply::Reply;
use rules::fault::Fault;
use store::store::Store;

impl<S: Store, L: Line> Engine<S, L> {
    pub(crate) fn check_event(&self, time: u64, letter: u8) -> Result<Time, Fault>
        ensures { result ≡ unless (event_fault self.now.market.host time letter) time }
    {
        let time = Time::try_from(time)?;
        self.check_clock(time)?;
        let allowed = self.market.phase.is_running() && self.market.phase.takes(letter);
        refuse_if(!allowed, Fault::Phase)?;
        let ends = letter == u8::from(Event::EndOfSystemHours);
        refuse_if(ends && self.market.live() > 0, Fault::LiveOrders)?;
        self.check_feed_places()?;
        self.check_reply_places()?;
        Ok(time)
    }

    // Does an event that nothing refuses.
    pub(crate) fn run_event(&mut self, time: Time, letter: u8)
        ensures { self.new.market.host ≡ event_done self.old.market.host time letter }
    {
        self.market.clock = u64::from(time);
        // A letter that is no event leads nowhere: the check has refused it.
        if let Ok(event) = Event::try_from(letter) {
            self.happen(time, event);
        }
    }

    // The feed tells the event, and so do the replies where it concerns the accounts.
    fn happen(&mut self, time: Time, event: Event)
        ensures { self.new.market.host ≡ happened self.old.market.host time (Some event) }
    {
        self.market.publish(time, Change::Event(event));
        if let Some(event) = day_event(event) {
            self.tell_accounts(time, event);
        }
    }

    // Each account in turn.
    fn tell_accounts(&mut self, time: Time, event: DayEvent)
        ensures { self.new.market.host ≡ informed self.old.market.host time (Some event) }
    {
        let reply = Reply::SystemEvent(SystemEvent {
            time: time.into(),
            event,
        });
        for account in 0..self.market.accounts.len() as u8 {
            self.market.reply(account, reply);
        }
    }
}

// The start and the end of system hours concern the accounts too. A function: both types are other crates'.
fn day_event(event: Event) -> Option<DayEvent>
    ensures { result ≡ day_event event }
{
    match event {
        Event::StartOfSystemHours => Some(DayEvent::StartOfDay),
        Event::EndOfSystemHours => Some(DayEvent::EndOfDay),
        _ => None,
    }
}

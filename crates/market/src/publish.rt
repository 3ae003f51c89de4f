// The one way to a change that members can see: the feed tells it, and it is made.
ghost use Rattle.std.specs.Prelude.{◌≡◌};
ghost use Rattle.itch.specs.Feed.{feed_bytes};
ghost use Rattle.line.specs.Meaning.{taken};
ghost use Rattle.market.specs.Changes.{fed, timed, published, published_all};
ghost use Rattle.market.specs.Host.{with_feed};

use crate::change::Change;
use crate::market::Market;
use crate::time::Time;
use itch::feed::FeedMessage;
use itch::messages::Seconds;
use line::line::Line;
use store::store::Store;

pub mod changes;
mod messages;

impl<S: Store, L: Line> Market<S, L> {
    // A change is told and made.
    pub fn publish(&mut self, time: Time, change: Change)
        ensures { self.new.host ≡ published self.old.host time change }
    {
        let message = self.message_of(time.nanos(), change);
        self.tell(time, message);
        self.apply(change);
    }

    // The changes in turn, at one time.
    pub fn publish_all(&mut self, time: Time, changes: &[Change])
        ensures { self.new.host ≡ published_all self.old.host time changes.now }
    {
        for change in changes {
            self.publish(time, *change);
        }
    }

    // A message on the feed, behind the second where that is new.
    fn tell(&mut self, time: Time, message: FeedMessage)
        ensures { self.new.host ≡ fed self.old.host time message }
    {
        self.tell_second(time);
        self.send(message);
    }

    // The second of a time, unless the feed told it last.
    fn tell_second(&mut self, time: Time)
        ensures { self.new.host ≡ timed self.old.host time }
    {
        let second = time.second();
        let told = Some(u64::from(second));
        if self.second != told {
            self.send(FeedMessage::Seconds(Seconds { seconds: second }));
            self.second = told;
        }
    }

    // The bytes of a message onto the feed's line.
    fn send(&mut self, message: FeedMessage)
        ensures { self.new.host ≡ with_feed self.old.host (taken self.old.host.feed (feed_bytes message)) self.old.host.second }
    {
        let frame = message.encode();
        let _ = self.feed.take(frame.bytes());
    }
}

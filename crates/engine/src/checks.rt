// The tests that several calls share, each with its refusal.
ghost use Rattle.std.specs.Prelude.{◌≡◌};
ghost use Rattle.engine.specs.Calls.{refused_if, early, no_account, few_feed_places, few_reply_places};

use crate::engine::Engine;
use line::line::Line;
use market::time::Time;
use rules::fault::Fault;
use store::store::Store;

// How many free places a call needs, for the most that it may tell. On the feed: one for each live order, and these
// besides.
const MORE_ON_FEED: usize = 4;

// For replies: so many for each live order, and those besides.
const REPLIES_PER_ORDER: usize = 2;

const MORE_REPLIES: usize = 20;

pub(crate) fn refuse_if(applies: bool, fault: Fault) -> Result<(), Fault>
    ensures { result ≡ refused_if applies fault }
{
    if applies { Err(fault) } else { Ok(()) }
}

impl<S: Store, L: Line> Engine<S, L> {
    pub(crate) fn check_clock(&self, time: Time) -> Result<(), Fault>
        ensures { result ≡ refused_if (early self.now.market.host time) Fault.Clock }
    {
        refuse_if(u64::from(time) < self.market.clock, Fault::Clock)
    }

    pub(crate) fn check_account(&self, account: u8) -> Result<(), Fault>
        ensures { result ≡ refused_if (no_account self.now.market.host account) Fault.Account }
    {
        refuse_if(
            usize::from(account) >= self.market.accounts.len(),
            Fault::Account,
        )
    }

    // Two rules with numbers of their own: one function of line, numbers and fault would say no more.
    pub(crate) fn check_feed_places(&self) -> Result<(), Fault>
        ensures { result ≡ refused_if (few_feed_places self.now.market.host) Fault.FeedPlaces }
    {
        let needed = self.market.live() + MORE_ON_FEED;
        refuse_if(self.market.feed.free() < needed, Fault::FeedPlaces)
    }

    pub(crate) fn check_reply_places(&self) -> Result<(), Fault>
        ensures { result ≡ refused_if (few_reply_places self.now.market.host) Fault.ReplyPlaces }
    {
        let needed = REPLIES_PER_ORDER * self.market.live() + MORE_REPLIES;
        refuse_if(self.market.replies.free() < needed, Fault::ReplyPlaces)
    }
}

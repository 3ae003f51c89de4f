// One execution of a newcomer against a resting order.
ghost use Rattle.std.specs.Prelude.{◌≡◌, ◌<◌, ◌^◌, ◌-◌};
ghost use Rattle.market.specs.Changes.{lessened, record_at};
ghost use Rattle.matching.specs.Matching.{dealt, executed_reply, executed, walked};

use line::line::Line;
use market::change::Change;
use market::market::Market;
use market::publish::changes::lessened;
use market::time::Time;
use ouch::letters::Liquidity;
use ouch::replies::Executed;
use ouch::reply::Reply;
use store::record::Record;
use store::store::Store;

// What two orders execute, and at which yield.
#[derive(Clone, Copy)]
struct Deal {
    time: Time,
    quantity: u32,
    rate: i32,
}

impl Deal {
    // What the account of one of the two orders is told: the other's name is in it.
    fn reply<S: Store, L: Line>(
        &self,
        market: &Market<S, L>,
        own: Record,
        other: Record,
        liquidity: Liquidity,
    ) -> Reply
        ensures { result ≡ executed_reply market.now.host self.now.time own other self.now.quantity self.now.rate liquidity }
    {
        let counterparty = market.accounts.at(usize::from(other.account)).name;
        Reply::Executed(Executed {
            time: self.time.into(),
            token: own.token,
            quantity: self.quantity,
            price: self.rate,
            liquidity,
            counterparty,
            matched: market.next_match,
        })
    }
}

// The newcomer and the order at a place execute the smaller of their quantities, at the resting order's yield. The feed
// is told, then the newcomer's account, then the resting order's. Answers the newcomer as it is then.
pub fn execute<S: Store, L: Line>(
    market: &mut Market<S, L>,
    time: Time,
    newcomer: Record,
    place: usize,
) -> Record
    requires matches { market.old.host.next_match < 2 ^ 64 - 1 }
    ensures host { market.new.host ≡ executed market.old.host time newcomer place (record_at place market.old.host.orders) }
    ensures left { result ≡ lessened (dealt newcomer (record_at place market.old.host.orders)) newcomer }
{
    let resting = market.record_at(place);
    let deal = Deal {
        time,
        quantity: newcomer.left.min(resting.left),
        rate: resting.rate,
    };
    let removed = deal.reply(market, newcomer, resting, Liquidity::Removed);
    let added = deal.reply(market, resting, newcomer, Liquidity::Added);
    let execution = Change::Execute(place, deal.quantity, market.next_match);
    market.publish(time, execution);
    market.reply(newcomer.account, removed);
    market.reply(resting.account, added);
    market.next_match += 1;
    lessened(newcomer, deal.quantity)
}

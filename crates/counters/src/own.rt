// Advances the counters of a point when it numbers a new element.
ghost use Rattle.std.specs.Prelude.{◌≡◌};
ghost use Rattle.counters.specs.Numbering.{advanced_for};

use crate::{RequestId, SequenceNumber};

// Holds the counters with which a point numbers its elements.
#[derive(Clone, Copy, PartialEq, Eq)]
pub struct OwnCounters {
    pub number: SequenceNumber,
    pub request: RequestId,
}

// Returns the counters after a new element, which takes the next own number. A new RREQ also takes the next request ID. `rreq`
// says whether the element is a RREQ: the types of elements are those of crate element, above this one. `advanced`, `advance`
// and `numbered` are the three forms that docs/DECISIONS.md names.
#[tactic(auto, unfolding(crate::specs::Numbering::advanced_for))]
fn advanced(counters: OwnCounters, rreq: bool) -> OwnCounters
    ensures { result ≡ advanced_for rreq counters }
{
    if rreq {
        return OwnCounters {
            number: counters.number.next(),
            request: counters.request.next(),
        };
    }
    OwnCounters {
        number: counters.number.next(),
        request: counters.request,
    }
}

// Advances lent counters in place, as `advanced` does by value.
fn advance(counters: &mut OwnCounters, rreq: bool)
    ensures { counters.new ≡ advanced_for rreq counters.old }
{
    *counters = advanced(*counters, rreq);
}

// Advances counters that the caller has by value, as in the head of a table, by lending them to `advance`.
pub fn numbered(counters: OwnCounters, rreq: bool) -> OwnCounters
    ensures { result ≡ advanced_for rreq counters }
{
    let mut lent = counters;
    advance(&mut lent, rreq);
    lent
}

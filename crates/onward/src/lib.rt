// Forwards a received RANN, RREQ or RREP. The table is the one after steps 1 and 2.
#![tactic(auto)]

pub mod announcement;
mod kept;
pub mod reply;
pub mod request;

ghost use Rattle.std.specs.Prelude.{◌≡◌, ◌≤◌};
ghost use Rattle.rules.specs.Learn.{Extends};
ghost use Rattle.rules.specs.Onward.{onward};

use calls::here;
use element::PathInfo;
use rules::Arrival;

// Returns the path with the three changes: hop count + 1, TTL - 1, metric + link. That the path can be extended by the link
// stands as a clause here and in the functions that call this one. They take the path inside of the fields of their element,
// where a struct of arrival and path would repeat it.
fn onward(a: Arrival, p: PathInfo) -> PathInfo
    requires extends { Extends a p }
    requires le_ttl { 1 ≤ p.ttl }
    ensures { result ≡ onward a p }
{
    PathInfo {
        hops: here::hops_here(p),
        ttl: p.ttl - 1,
        metric: here::metric_here(a, p),
        ..p
    }
}

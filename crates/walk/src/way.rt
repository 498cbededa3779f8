// Follows active rows from a start to a destination.
ghost use Rattle.std.specs.Prelude.{◌≡◌, true, Option};
ghost use Rattle.table.specs.Table.{active_next};
ghost use Rattle.element.specs.Lists.{contains};
ghost use Rattle.rules.specs.Walk.{follow, points, row_of_point, tables_in};
ghost use Rattle.walk.specs.Answers.{walked};
ghost use Rattle.walk.specs.OnTheWay.{resumed, stopped_at};

use crate::Ending;
use crate::pieces::Pieces;
use counters::HopCount;
use layout::address::Address;
use table::search;

// Returns the active next hop that the point at address `at` has for the destination. Returns None if there is none, or if
// no point has that address.
fn next_from(pieces: &Pieces, at: Address, clock: u64, destination: Address) -> Option<Address>
    ensures { result ≡ active_next clock (row_of_point (tables_in pieces.now.octets.now pieces.now.count) at destination) }
{
    let i = pieces.find(at)?;
    search::active_next(pieces.table_at(i), clock, destination)
}

// Returns the ending of a walk that stands at address `at`, from which no active row leads on. If no point has that address, the
// hop to it is not counted.
fn stopped(pieces: &Pieces, at: Address, hops: u8, before: u8) -> Ending
    ensures { walked result ≡ stopped_at (tables_in pieces.now.octets.now pieces.now.count) at hops before }
{
    if pieces.is_point(at) {
        return Ending::Stopped(HopCount(hops));
    }
    Ending::Stopped(HopCount(before))
}

// Returns the ending of a walk after as many hops as points. The last hop may lead to no point. No more rows are read, and the
// clock therefore plays no part. The contract has 0 for the clock.
fn ended(pieces: &Pieces, at: Address, hops: u8, before: u8, destination: Address) -> Ending
    ensures { walked result ≡ resumed (tables_in pieces.now.octets.now pieces.now.count) 0 destination 0 at hops before }
{
    if at == destination {
        return Ending::Arrived(HopCount(hops));
    }
    if !pieces.is_point(at) {
        return Ending::Stopped(HopCount(before));
    }
    Ending::TooLong(HopCount(hops))
}

// Follows the rows from the start. It finds out whether a next hop is a point when it walks on from that next hop, and therefore
// looks each next hop up once.
pub fn follow(pieces: &Pieces, clock: u64, start: Address, destination: Address) -> Ending
    requires { contains (points (tables_in pieces.now.octets.now pieces.now.count)) start ≡ true }
    ensures { walked result
        ≡ follow (tables_in pieces.now.octets.now pieces.now.count) clock destination pieces.now.count start 0 }
{
    let mut at = start;
    let mut before = 0u8;
    let mut hops = 0u8;
    for _ in 0..pieces.count {
        if at == destination {
            return Ending::Arrived(HopCount(hops));
        }
        let Some(next) = next_from(pieces, at, clock, destination) else {
            return stopped(pieces, at, hops, before);
        };
        at = next;
        before = hops;
        hops += 1;
    }
    ended(pieces, at, hops, before, destination)
}

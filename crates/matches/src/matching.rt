// Finds the matches of a RERR: destinations with an active row of known number whose next hop is the transmitter.
ghost use Rattle.std.specs.Prelude.{◌≡◌, not};
ghost use Rattle.std.specs.Bool.{then_some};
ghost use Rattle.element.specs.Entries.{lost_in};
ghost use Rattle.rules.specs.Errors.{is_lost_by, matches};
ghost use Rattle.rules.specs.Lists.{any};

use element::{LostDestination, list};
use layout::row;
use layout::row::Row;
use rules::Arrival;
use table::search;

// Reports whether the row is active, has a known number, and has the transmitter as its next hop.
pub fn is_lost_by(a: Arrival, r: Row) -> bool
    ensures { result ≡ is_lost_by a.clock a.transmitter r }
{
    r.is_through(a.clock, a.transmitter) & (r.known == 1)
}

// Returns the destination, as received, if it is a match.
pub fn if_match(table: &[u8], a: Arrival, m: LostDestination) -> Option<LostDestination>
    ensures { result ≡ then_some (matches table.now a.clock a.transmitter m) m }
{
    let Some(i) = search::find_row(table, m.address) else {
        return None;
    };
    let r = row::read_row(table, i);
    is_lost_by(a, r).then_some(m)
}

pub fn is_match(table: &[u8], a: Arrival, m: LostDestination) -> bool
    ensures { result ≡ matches table.now a.clock a.transmitter m }
{
    if_match(table, a, m).is_some()
}

// Checks refusal 26: no destination in `part` is a match. The loop is written as that of `list::has_forbidden`, which has the
// reason.
pub fn matches_nothing(table: &[u8], a: Arrival, part: &[u8]) -> bool
    ensures { result ≡ not (any (matches table.now a.clock a.transmitter) (lost_in part.now)) }
{
    let n = part.len() / list::LOST;
    for i in 0..n {
        if is_match(table, a, list::lost_at(part, i)) {
            return false;
        }
    }
    true
}

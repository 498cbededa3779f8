// Invalidates the rows of the matches of a RERR.
ghost use Rattle.std.specs.Prelude.{◌≡◌, cond, None, Some};
ghost use Rattle.table.specs.Table.{change_where};
ghost use Rattle.element.specs.Entries.{lost_in};
ghost use Rattle.rules.specs.Errors.{erred, erred_with, is_match, number_beside};

use crate::matching;
use counters::SequenceNumber;
use element::list;
use layout::address::Address;
use layout::row::Row;
use rules::Arrival;
use table::store;

// Returns the number next to a destination in the RERR, or None if the RERR does not name the destination.
fn number_beside(part: &[u8], d: Address) -> Option<SequenceNumber>
    ensures { result ≡ number_beside d (lost_in part.now) }
{
    let n = part.len() / list::LOST;
    for i in 0..n {
        let m = list::lost_at(part, i);
        if m.address == d {
            return Some(m.number);
        }
    }
    None
}

// Invalidates the row, which stays held. If the received number is newer, the row takes it, so that elements with the old
// number are stale.
fn erred_with(number: SequenceNumber, r: Row) -> Row
    ensures { result ≡ erred_with (Some number) r }
{
    let lost = r.invalidated();
    if !number.is_newer(r.number) {
        return lost;
    }
    lost.raised(number)
}

// Returns the row r after the RERR, or None if r is not the row of a match.
fn row_after(a: Arrival, part: &[u8], r: Row) -> Option<Row>
    ensures { result
        ≡ cond (is_match a.clock a.transmitter (lost_in part.now) r) (Some (erred (lost_in part.now) r)) None }
{
    if !matching::is_lost_by(a, r) {
        return None;
    }
    let number = number_beside(part, r.destination)?;
    Some(erred_with(number, r))
}

// Invalidates the row of each match.
pub fn lose_matches(table: &mut [u8], a: Arrival, part: &[u8])
    ensures { table.new
        ≡ change_where (is_match a.clock a.transmitter (lost_in part.now)) (erred (lost_in part.now))
        table.old }
{
    store::change_rows(table, |r| row_after(a, part, r));
}

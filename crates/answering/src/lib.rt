// Finds the row that answers for a destination of a received RREQ.
#![tactic(auto)]

ghost use Rattle.std.specs.Prelude.{◌≡◌};
ghost use Rattle.rules.specs.Destinations.{answers_for};
ghost use Rattle.answering.specs.Answering.{answering_row};

use element::{Target, flags};
use layout::row;
use layout::row::Row;
use table::search;

// Reports whether the row answers for the destination q: DO = 0, the row is active and of known number, and the requested number
// is marked unknown or the row's number is not older than it.
#[tactic(auto, unfolding(rules::specs::Destinations::answers_for))]
fn answers_for(clock: u64, q: Target, r: Row) -> bool
    ensures { result ≡ answers_for clock q r }
{
    if flags::has_do(q) {
        return false;
    }
    if !r.is_active(clock) {
        return false;
    }
    if r.known != 1 {
        return false;
    }
    flags::is_number_unknown(q) | !r.number.is_older(q.number)
}

// Returns the row from which the point makes an intermediate reply for the destination q, if a row answers for q. With DO = 1 the
// function looks for no row.
#[tactic(auto, unfolding(crate::specs::Answering::answering_row, table::specs::Table::row_for))]
pub fn answering_row(table: &[u8], clock: u64, q: Target) -> Option<Row>
    ensures { result ≡ answering_row table.now clock q }
{
    if flags::has_do(q) {
        return None;
    }
    let i = search::find_row(table, q.address)?;
    let r = row::read_row(table, i);
    if !answers_for(clock, q, r) {
        return None;
    }
    Some(r)
}

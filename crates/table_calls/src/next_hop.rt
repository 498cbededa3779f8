// Finds a next hop.
ghost use Rattle.std.specs.Prelude.{◌≡◌};
ghost use Rattle.rules.specs.NextHop.{next_hop};

use layout::address::Address;
use layout::row;
use refusals::Refusal;
use table::{legal, search};

// Returns the next hop of an active row, or the refusal of lowest number.
pub fn next_hop(table: &[u8], clock: u64, destination: Address) -> Result<Address, Refusal>
    ensures { result ≡ next_hop table.now clock destination }
{
    if !legal::is_sized(table) {
        return Err(Refusal::TableLength);
    }
    if row::MAX_CLOCK < clock {
        return Err(Refusal::ClockTooLarge);
    }
    if !destination.is_individual() {
        return Err(Refusal::BadAddress);
    }
    if !legal::is_table(table) {
        return Err(Refusal::NotATable);
    }
    if clock < row::read_head(table).clock {
        return Err(Refusal::OldClock);
    }
    search::active_next(table, clock, destination).ok_or(Refusal::NoNextHop)
}

// The link to a broken neighbour, and the rows that break with it.
ghost use Rattle.std.specs.Prelude.{◌≡◌, cond, length, None, Some};
ghost use Rattle.table.specs.Table.{change_where};
ghost use Rattle.rules.specs.Errors.{broken, broken_entries};
ghost use Rattle.breaking.specs.Links.{breaks};

use layout::address::Address;
use layout::row::Row;
use table::store;

// Holds the neighbour that can no longer be reached, and the clock at which the link to it breaks.
#[derive(Clone, Copy)]
pub struct BrokenLink {
    pub clock: u64,
    pub neighbour: Address,
}

// Returns the row after a break. The row stays held. A known number is stepped, because what was learnt under the old number
// is stale.
pub fn broken(r: Row) -> Row
    ensures { result ≡ broken r }
{
    if r.known != 1 {
        return r.invalidated();
    }
    r.invalidated().raised(r.number.next())
}

impl BrokenLink {
    // Reports whether the row is active and leads through the neighbour.
    pub fn breaks(self, r: Row) -> bool
        ensures { result ≡ breaks self r }
    {
        r.is_through(self.clock, self.neighbour)
    }

    // Returns the row r after the break, or None if r does not break.
    fn row_after(self, r: Row) -> Option<Row>
        ensures { result ≡ cond (breaks self r) (Some (broken r)) None }
    {
        if !self.breaks(r) {
            return None;
        }
        Some(broken(r))
    }

    // Breaks every active row through the neighbour. `lost` is the number of rows that break, and if it is 0 no row is read.
    pub fn lose_rows(self, table: &mut [u8], lost: usize)
        requires lost_value { lost ≡ length (broken_entries (breaks self) table.old) }
        ensures { table.new ≡ change_where (breaks self) broken table.old }
    {
        if lost == 0 {
            return;
        }
        store::change_rows(table, |r| self.row_after(r));
    }
}

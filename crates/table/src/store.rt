// Writes a fresh table, and writes a row to its place.
ghost use Rattle.std.specs.Prelude.{◌≡◌, Bool, length};
ghost use Rattle.layout.specs.declared.row.Row.{Row};
ghost use Rattle.table.specs.Table.{StepsBy, change_where, find_row, fresh, store};
ghost use Rattle.layout.specs.Layout.{Sized};

use crate::search;
use counters::SequenceNumber;
use layout::address::Address;
use layout::row;
use layout::row::{HEAD_OCTETS, Head, Row};

// Overwrites the octets with a fresh table, whatever they were.
pub fn make_fresh(table: &mut [u8], own: Address, number: SequenceNumber)
    requires { Sized table.old }
    ensures { table.new ≡ fresh (length table.old) own number }
{
    row::write_head(table, Head::fresh(own, number));
    octets::clear(&mut table[HEAD_OCTETS..]);
}

// Writes a row where its destination was found, otherwise to the free row of lowest place. If there is no place, nothing
// changes.
pub fn put_row(table: &mut [u8], found: Option<usize>, r: Row)
    requires { found ≡ find_row table.old r.destination }
    ensures { table.new ≡ store table.old r }
{
    if let Some(i) = search::place_for(table, found) {
        row::write_row(table, i, r);
    }
}

// Changes the rows for which `step` returns a row: each takes the row that `step` returns. The other rows stay as they are.
pub fn change_rows<F: Fn(Row) -> Option<Row>>(table: &mut [u8], step: F)
    requires callable { F.IsAlwaysCallable step }
    ensures { (p : Row → Bool) (f : Row → Row) → StepsBy (F.post step) p f → table.new ≡ change_where p f table.old }
{
    for i in 0..search::rows_of(table) {
        if let Some(r) = step(row::read_row(table, i)) {
            row::write_row(table, i, r);
        }
    }
}

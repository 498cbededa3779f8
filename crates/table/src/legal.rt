// Tests whether octets are a table.
ghost use Rattle.std.specs.Prelude.{◌≡◌, ◌&&◌, ◌||◌, ◌+◌, ◌<◌, ◌≤◌, length, not};
ghost use Rattle.layout.specs.Row.{is_free, row_ok};
ghost use Rattle.layout.specs.Layout.{place, row_at, row_octets, sized, Sized};
ghost use Rattle.table.specs.Places.{every};
ghost use Rattle.table.specs.Table.{alone, is_table, passes};

use crate::search;
use layout::address::Address;
use layout::row;
use layout::row::{HEAD_OCTETS, MOST_ROWS, ROW_OCTETS};

// How many octets the shortest and the longest table have.
const SHORTEST: usize = HEAD_OCTETS + ROW_OCTETS;

const LONGEST: usize = HEAD_OCTETS + ROW_OCTETS * MOST_ROWS;

pub fn is_sized(table: &[u8]) -> bool
    ensures { result ≡ sized table.now }
{
    let octets = table.len();
    (octets % ROW_OCTETS == HEAD_OCTETS % ROW_OCTETS) & (SHORTEST <= octets) & (octets <= LONGEST)
}

// Reports whether row i is all zero, reading eight octets at a time.
fn is_blank(table: &[u8], i: usize) -> bool
    requires { place i + row_octets ≤ length table.now }
    ensures { result ≡ is_free (row_at table.now i) }
{
    let at = HEAD_OCTETS + ROW_OCTETS * i;
    (octets::read_u64(table, at) == 0)
        & (octets::read_u64(table, at + 8) == 0)
        & (octets::read_u64(table, at + 16) == 0)
        & (octets::read_u64(table, at + 24) == 0)
}

fn is_row(table: &[u8], own: Address, i: usize) -> bool
    requires { place i + row_octets ≤ length table.now }
    ensures { result ≡ row_ok own (row_at table.now i) }
{
    if search::is_vacant(table, i) {
        return is_blank(table, i);
    }
    row::read_row(table, i).is_held(own)
}

// Reports whether row i is free, or no row before it is held for its destination.
fn is_alone(table: &[u8], i: usize) -> bool
    requires { place i + row_octets ≤ length table.now }
    ensures { result ≡ alone table.now i }
{
    if search::is_vacant(table, i) {
        return true;
    }
    let d = row::destination_at(table, i);
    search::find_below(table, i, d).is_none()
}

// Reports whether row i passes. If the mark of its destination is not seen, no row before i has the destination, and the function
// does not search the rows before i.
fn passes_by(table: &[u8], own: Address, i: usize, seen: bool) -> bool
    requires { place i + row_octets ≤ length table.now }
    ensures { result ≡ (row_ok own (row_at table.now i) && (not seen || alone table.now i)) }
{
    if !is_row(table, own, i) {
        return false;
    }
    !seen || is_alone(table, i)
}

// Reports whether the first n rows pass. It marks in `seen` the destination of each row that passes. Two destinations may share
// a mark. If the mark of a row is already set, the rows before that row are searched.
fn rows_pass_by(table: &[u8], own: Address, n: usize, seen: &mut [bool]) -> bool
    requires n_in_bounds { place n ≤ length table.now }
    requires some_marks { 0 < length seen.old }
    ensures { result ≡ every (passes table.now own) n }
{
    let last = seen.len() - 1;
    for i in 0..n {
        let h = row::destination_at(table, i).mark(last);
        if !passes_by(table, own, i, seen[h]) {
            return false;
        }
        seen[h] = true;
    }
    true
}

// Reports whether the first n rows pass, with N marks.
fn rows_pass_marked<const N: usize>(table: &[u8], own: Address, n: usize) -> bool
    requires some_marks { 0 < N }
    requires marks_bound { N ≤ 1024 }
    requires n_in_bounds { place n ≤ length table.now }
    ensures { result ≡ every (passes table.now own) n }
{
    let mut seen = [false; N];
    rows_pass_by(table, own, n, &mut seen)
}

// Reports whether the first n rows pass. A table of few rows uses few marks, because all marks must be cleared first.
fn rows_pass(table: &[u8], own: Address, n: usize) -> bool
    requires { place n ≤ length table.now }
    ensures { result ≡ every (passes table.now own) n }
{
    if n <= 4 {
        return rows_pass_marked::<64>(table, own, n);
    }
    if n <= 16 {
        return rows_pass_marked::<256>(table, own, n);
    }
    rows_pass_marked::<1024>(table, own, n)
}

// Counts the rows without `search::rows_of`, because these octets are known to have a head: a call takes up to
// four instructions less.
pub fn is_table(table: &[u8]) -> bool
    requires { Sized table.now }
    ensures { result ≡ is_table table.now }
{
    let head = row::read_head(table);
    if !head.is_ok() {
        return false;
    }
    rows_pass(table, head.own, (table.len() - HEAD_OCTETS) / ROW_OCTETS)
}

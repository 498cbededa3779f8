// Finds rows by destination, and finds and counts free rows.
ghost use Rattle.std.specs.Prelude.{◌≡◌, ◌+◌, ◌<◌, ◌≤◌, cond, length};
ghost use Rattle.std.specs.Option.{option_or};
ghost use Rattle.layout.specs.Layout.{place, row_octets, rows};
ghost use Rattle.table.specs.Places.{first};
ghost use Rattle.table.specs.Table.{active_next, find_row, first_free, free_rows, holds, row_for, vacant};

use layout::address::Address;
use layout::row;
use layout::row::{HEAD_OCTETS, ROW_OCTETS};

// Returns how many rows the table has. Octets that are shorter than a head have no rows.
pub fn rows_of(table: &[u8]) -> usize
    ensures { result ≡ rows table.now }
{
    table.len().saturating_sub(HEAD_OCTETS) / ROW_OCTETS
}

pub fn is_vacant(table: &[u8], i: usize) -> bool
    requires { place i + row_octets ≤ length table.now }
    ensures { result ≡ vacant table.now i }
{
    row::status_at(table, i) == 0
}

// Reports whether row i is held for d.
fn is_held_for(table: &[u8], i: usize, d: Address) -> bool
    requires { place i + row_octets ≤ length table.now }
    ensures { result ≡ holds table.now d i }
{
    (row::destination_at(table, i) == d) && !is_vacant(table, i)
}

// Returns the place of the first row held for d among the first n rows.
pub fn find_below(table: &[u8], n: usize, d: Address) -> Option<usize>
    requires { n ≤ rows table.now }
    ensures { result ≡ first (holds table.now d) n }
{
    (0..n).find(|&i| is_held_for(table, i, d))
}

pub fn find_row(table: &[u8], d: Address) -> Option<usize>
    ensures { result ≡ find_row table.now d }
{
    find_below(table, rows_of(table), d)
}

// Returns the next hop of the destination's row, if that row is active.
pub fn active_next(table: &[u8], clock: u64, destination: Address) -> Option<Address>
    ensures { result ≡ active_next clock (row_for table.now destination) }
{
    let i = find_row(table, destination)?;
    let r = row::read_row(table, i);
    if !r.is_active(clock) {
        return None;
    }
    Some(r.next)
}

#[tactic(auto, unfolding(crate::specs::Table::first_free))]
fn first_free(table: &[u8]) -> Option<usize>
    ensures { result ≡ first_free table.now }
{
    (0..rows_of(table)).find(|&i| is_vacant(table, i))
}

// Returns the place where a row goes: the place `found` of its destination's row, otherwise that of the first free row.
pub fn place_for(table: &[u8], found: Option<usize>) -> Option<usize>
    ensures { result ≡ option_or found (first_free table.now) }
{
    found.or_else(|| first_free(table))
}

// Adds a free row to the count. A held row leaves the count as it is, so that free rows count wherever they lie.
fn counted(found: usize, free: bool) -> usize
    requires { found + 1 < 18446744073709551616 }
    ensures { result ≡ found + cond free 1 0 }
{
    if free { found + 1 } else { found }
}

// Returns how many rows are free. `counted` stands for `filter` and `count`, because what becomes of the count at a held row can
// then be damaged by itself (the must-fail edit `free_rows_side_by_side`).
pub fn free_rows(table: &[u8]) -> usize
    ensures { result ≡ free_rows table.now }
{
    let mut found = 0;
    for i in 0..rows_of(table) {
        found = counted(found, is_vacant(table, i));
    }
    found
}

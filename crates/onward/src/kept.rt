// Writes the kept destinations of a RREQ, one after another.
ghost use Rattle.std.specs.Prelude.{◌≡◌, ◌+◌, ◌*◌, ◌≤◌, length};
ghost use mathlib.Core.List.{flat_map};
ghost use Rattle.octets.specs.LittleEndian.{overwrite};
ghost use Rattle.element.specs.Entries.{target_octets};
ghost use Rattle.onward.specs.Kept.{kept_among, kept_of};
ghost use Rattle.layout.specs.Layout.{Sized};

use element::{Target, flags, list};
use layout::address::Address;
use layout::row;
use writing::kept;

// Returns the form in which a destination is kept in the forwarded RREQ, or None if it is struck out. The own address is struck
// out. A destination that a row answers for is struck out too, unless RF = 1. With RF = 1 it is kept, with DO set.
#[tactic(auto, unfolding(crate::specs::Kept::kept_of))]
fn kept_of(table: &[u8], clock: u64, q: Target) -> Option<Target>
    requires { Sized table.now }
    ensures { result ≡ kept_of table.now clock q }
{
    if q.address == row::read_head(table).own {
        return None;
    }
    if q.address == Address(list::ALL_ONES) {
        return Some(q);
    }
    if answering::answering_row(table, clock, q).is_none() {
        return Some(q);
    }
    if !flags::has_rf(q) {
        return None;
    }
    Some(flags::with_do(q))
}

// Writes the kept destinations of `part`, starting at place `at`. Returns the place after them.
pub fn write_kept(output: &mut [u8], at: usize, table: &[u8], clock: u64, part: &[u8]) -> usize
    requires sized { Sized table.now }
    requires part_in_bounds { at + length part.now ≤ length output.old }
    ensures value { result ≡ at + 11 * length (kept_among table.now clock part.now) }
    ensures output_after { output.new
        ≡ overwrite output.old at (flat_map target_octets (kept_among table.now clock part.now)) }
{
    kept::write_kept(output, at, part, |q| kept_of(table, clock, q))
}

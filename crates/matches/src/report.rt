// Writes the RERR that the point sends to all ones: the matches, with flags and numbers as received.
ghost use Rattle.std.specs.Prelude.{◌≡◌, ◌+◌, ◌*◌, ◌≤◌, length};
ghost use mathlib.Core.List.{flat_map};
ghost use Rattle.octets.specs.LittleEndian.{overwrite};
ghost use Rattle.element.specs.Element.{rerr};
ghost use Rattle.element.specs.Layout.{PartOf};
ghost use Rattle.element.specs.declared.Kind.{Kind};
ghost use Rattle.element.specs.Entries.{lost_in, lost_octets};
ghost use Rattle.rules.specs.Errors.{matches};
ghost use Rattle.rules.specs.Lists.{filter};
ghost use Rattle.rules.specs.Onward.{to_all};
ghost use Rattle.rules.specs.Exit.{frame_octets};

use crate::matching;
use element::{RerrFields, list};
use layout::address::Address;
use rules::Arrival;
use writing::kept;

// Writes the matches in `part` from place `at` on. Returns the place after them.
fn write_matches(output: &mut [u8], at: usize, table: &[u8], a: Arrival, part: &[u8]) -> usize
    requires part_in_bounds { at + length part.now ≤ length output.old }
    ensures value { result
        ≡ at + 10 * length (filter (matches table.now a.clock a.transmitter) (lost_in part.now)) }
    ensures output_after { output.new
        ≡ overwrite output.old at
        (flat_map lost_octets (filter (matches table.now a.clock a.transmitter)
        (lost_in part.now))) }
{
    kept::write_kept(output, at, part, |m| matching::if_match(table, a, m))
}

// Writes the frame of the RERR with the matches from place `at` on. Returns how many octets the frame has. It writes the start
// of the RERR last, because the start has the count of matches.
pub fn write_error(
    output: &mut [u8],
    at: usize,
    table: &[u8],
    a: Arrival,
    f: RerrFields,
    part: &[u8],
) -> usize
    requires part_of { PartOf Kind.Rerr part.now }
    requires at_in_bounds { at + 260 ≤ length output.old }
    ensures upper_bound { result ≤ 260 }
    ensures value { result
        ≡ length (frame_octets (to_all (rerr f
        (filter (matches table.now a.clock a.transmitter) (lost_in part.now))))) }
    ensures output_after { output.new
        ≡ overwrite output.old at
        (frame_octets (to_all (rerr f
        (filter (matches table.now a.clock a.transmitter) (lost_in part.now))))) }
{
    let start = at + writing::RERR_START;
    let end = write_matches(output, start, table, a, part);
    let n = (end - start) / list::LOST;
    writing::start_rerr(output, at, Address(list::ALL_ONES), f, n);
    end - at
}

// Writes the RERRs of a break, in a pass over the rows that changes none of them.
ghost use Rattle.std.specs.Prelude.{◌≡◌, ◌+◌, ◌≤◌, length};
ghost use mathlib.Core.List.{flat_map};
ghost use Rattle.octets.specs.LittleEndian.{overwrite};
ghost use Rattle.layout.specs.Layout.{most_rows, place, row_at, row_octets, Sized};
ghost use Rattle.element.specs.Entries.{each};
ghost use Rattle.rules.specs.Errors.{broken_entries, broken_entry, errors_for};
ghost use Rattle.rules.specs.Exit.{frame_octets};
ghost use Rattle.breaking.specs.Links.{breaks};
ghost use Rattle.breaking.specs.Reports.{begun_after, octets_for};

use crate::errors::Reported;
use crate::rows;
use crate::rows::BrokenLink;
use element::LostDestination;
use layout::row;
use table::search;

// Adds the destination of row i to those reported before, if the row breaks.
fn report_row(
    output: &mut [u8],
    table: &[u8],
    i: usize,
    link: BrokenLink,
    before: Reported,
) -> Reported
    requires row_octets_in_bounds { place i + row_octets ≤ length table.now }
    requires next_in_bounds { octets_for (before.lost + 1) ≤ length output.old }
    ensures value { result.lost ≡ before.lost + length (broken_entry (breaks link) (row_at table.now i)) }
    ensures output_after { output.new
        ≡ overwrite output.old (octets_for before.lost)
        (begun_after before.lost (broken_entry (breaks link) (row_at table.now i))) }
{
    let r = row::read_row(table, i);
    if !link.breaks(r) {
        return before;
    }
    let entry = LostDestination {
        address: r.destination,
        number: rows::broken(r).number,
    };
    before.add(output, entry)
}

// Reports every row that breaks among the first n rows.
fn report_rows(output: &mut [u8], table: &[u8], n: usize, link: BrokenLink) -> Reported
    requires n_in_bounds { place n ≤ length table.now }
    requires n_le_most_rows { n ≤ most_rows }
    requires most_rows_in_bounds { octets_for most_rows ≤ length output.old }
    ensures value { result.lost ≡ length (flat_map (broken_entry (breaks link)) (each (row_at table.now) 0 n)) }
    ensures output_after { output.new
        ≡ overwrite output.old 0
        (begun_after 0 (flat_map (broken_entry (breaks link)) (each (row_at table.now) 0 n))) }
{
    let mut reported = Reported::nothing();
    for i in 0..n {
        reported = report_row(output, table, i, link, reported);
    }
    reported
}

// Writes the RERRs for a broken link from the start of the output on.
fn report_all(output: &mut [u8], table: &[u8], link: BrokenLink) -> Reported
    requires sized { Sized table.now }
    requires most_rows_in_bounds { octets_for most_rows ≤ length output.old }
    ensures value { result.lost ≡ length (broken_entries (breaks link) table.now) }
    ensures output_after { output.new
        ≡ overwrite output.old 0 (frame_octets (errors_for (broken_entries (breaks link) table.now))) }
{
    let reported = report_rows(output, table, search::rows_of(table), link);
    reported.close(output);
    reported
}

// Writes the RERRs for a broken link, starting at place `at`. Returns what they report.
pub fn report(output: &mut [u8], at: usize, table: &[u8], link: BrokenLink) -> Reported
    requires sized { Sized table.now }
    requires most_rows_in_bounds { at + octets_for most_rows ≤ length output.old }
    ensures value { result.lost ≡ length (broken_entries (breaks link) table.now) }
    ensures lost_le_most_rows { result.lost ≤ most_rows }
    ensures output_after { output.new
        ≡ overwrite output.old at (frame_octets (errors_for (broken_entries (breaks link) table.now))) }
{
    report_all(&mut output[at..], table, link)
}

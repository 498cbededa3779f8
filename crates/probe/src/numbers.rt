// Writes the numbers of an element one after another.
ghost use Rattle.std.specs.Prelude.{◌≡◌, ◌+◌, ◌*◌, ◌/◌, ◌≤◌, length};
ghost use mathlib.Core.List.{flat_map};
ghost use Rattle.octets.specs.LittleEndian.{overwrite};
ghost use Rattle.element.specs.Element.{numbered_numbers, rann, rerr, rrep, rreq, target_numbers};
ghost use Rattle.element.specs.Entries.{lost_in, numbered_in, targets_in};
ghost use Rattle.element.specs.Layout.{PartOf};
ghost use Rattle.element.specs.declared.Kind.{Kind};
ghost use Rattle.probe.specs.Probes.{element_numbers};

use element::list::ListKind;
use element::{PathInfo, RerrFields, RrepFields, RreqFields, list};

// Puts the values from the place `at` on.
fn put(numbers: &mut [u64], at: usize, values: &[u64])
    requires { at + length values.now ≤ length numbers.old }
    ensures { numbers.new ≡ overwrite numbers.old at values.now }
{
    numbers[at..at + values.len()].copy_from_slice(values);
}

// `put_targets` and `put_numbered` stay apart: a closure that returns the numbers of an entry needs a longer contract than both.
fn put_targets(numbers: &mut [u64], at: usize, part: &[u8])
    requires { at + 3 * (length part.now / 11) ≤ length numbers.old }
    ensures { numbers.new
        ≡ overwrite numbers.old at (flat_map target_numbers (targets_in part.now)) }
{
    let n = part.len() / list::TARGET;
    for i in 0..n {
        let t = list::target_at(part, i);
        let values = [t.flags as u64, t.address.0, t.number.0 as u64];
        put(numbers, at + 3 * i, &values);
    }
}

// Writes the dependents of a RREP or the destinations of a RERR. Each of them is an address and a number.
fn put_numbered(numbers: &mut [u64], at: usize, part: &[u8])
    requires { at + 2 * (length part.now / 10) ≤ length numbers.old }
    ensures { numbers.new
        ≡ overwrite numbers.old at (flat_map numbered_numbers (numbered_in part.now)) }
{
    let n = part.len() / list::DEPENDENT;
    for i in 0..n {
        let a = list::numbered_at(part, i);
        let values = [a.address.0, a.number.0 as u64];
        put(numbers, at + 2 * i, &values);
    }
}

// `put_rreq`, `put_rrep` and `put_rerr` require room for 71 numbers, the most that an element has. An array of 71 in the clause's
// place would be narrower: it would bar longer room. They stay apart, because the fields of the types differ.
pub fn put_rann(numbers: &mut [u64], path: PathInfo)
    requires { 9 ≤ length numbers.old }
    ensures { numbers.new ≡ overwrite numbers.old 0 (element_numbers (rann path)) }
{
    let values = writing::rann_numbers(path);
    put(numbers, 0, &values);
}

pub fn put_rreq(numbers: &mut [u64], f: RreqFields, part: &[u8])
    requires part_of { PartOf Kind.Rreq part.now }
    requires in_bounds { 71 ≤ length numbers.old }
    ensures { numbers.new
        ≡ overwrite numbers.old 0 (element_numbers (rreq f (targets_in part.now))) }
{
    let values = writing::rreq_numbers(f, list::entries_in(part, ListKind::Targets));
    put(numbers, 0, &values);
    put_targets(numbers, 11, part);
}

pub fn put_rrep(numbers: &mut [u64], f: RrepFields, part: &[u8])
    requires part_of { PartOf Kind.Rrep part.now }
    requires in_bounds { 71 ≤ length numbers.old }
    ensures { numbers.new
        ≡ overwrite numbers.old 0 (element_numbers (rrep f (numbered_in part.now))) }
{
    let values = writing::rrep_numbers(f, list::entries_in(part, ListKind::Dependents));
    put(numbers, 0, &values);
    put_numbered(numbers, 12, part);
}

pub fn put_rerr(numbers: &mut [u64], f: RerrFields, part: &[u8])
    requires part_of { PartOf Kind.Rerr part.now }
    requires in_bounds { 71 ≤ length numbers.old }
    ensures { numbers.new
        ≡ overwrite numbers.old 0 (element_numbers (rerr f (lost_in part.now))) }
{
    let values = writing::rerr_numbers(f, list::entries_in(part, ListKind::LostDestinations));
    put(numbers, 0, &values);
    put_numbered(numbers, 4, part);
}

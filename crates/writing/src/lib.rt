// Writes frames into a lent output, each as a receiver address and an element. Every function that writes a whole frame, the
// start of a frame or an entry returns the place after the octets that it wrote. The rest of the output stays unchanged. A place
// is handed on beside the output: a struct of both would hold a `&mut`, and each function that takes such a struct must then
// promise that the struct still holds the reference it came with.
#![tactic(auto)]

pub mod kept;

ghost use Rattle.std.specs.Prelude.{◌≡◌, ◌++◌, ◌+◌, ◌≤◌, length};
ghost use Rattle.octets.specs.LittleEndian.{field_octets, number_octets, overwrite, total};
ghost use Rattle.element.specs.declared.Kind.{Kind};
ghost use Rattle.element.specs.Element.{rann, rann_numbers, rerr_numbers, rrep, rrep_numbers, rreq, rreq_numbers};
ghost use Rattle.element.specs.Entries.{lost_octets, numbered_in, target_octets, targets_in};
ghost use Rattle.element.specs.Layout.{PartOf, most, size_of};
ghost use Rattle.element.specs.Octets.{fixed_numbers, frame_start, start_octets, write_frame};
ghost use Rattle.element.specs.declared.list.ListKind.{ListKind};

use element::list::ListKind;
use element::{Kind, LostDestination, PathInfo, RerrFields, RrepFields, RreqFields, Target, list};
use layout::address::Address;

// How many octets a frame has up to its list: the receiver address, and an element without entries.
pub const RANN_START: usize = 29;

pub const RREQ_START: usize = 34;

pub const RREP_START: usize = 40;

pub const RERR_START: usize = 10;

// Writes the receiver address, and the numbers of an element up to its list. All types share this function. Each type has
// a function of its own above this one, because the types differ in their fields, their widths and whether they have a count.
fn start_frame<const N: usize>(
    out: &mut [u8],
    at: usize,
    to: Address,
    widths: &[u8; N],
    numbers: &[u64; N],
)
    requires { at + 6 + total widths.now ≤ length out.old }
    ensures { out.new
        ≡ overwrite out.old at (number_octets 6 to.0 ++ field_octets widths.now numbers.now) }
{
    octets::write_number(out, at, 6, to.0);
    octets::write_fields(out, at + 6, widths, numbers);
}

// ---- RANN

// Returns the numbers of a RANN in the order of its octets, with ID and Length first. `rreq_numbers`, `rrep_numbers` and
// `rerr_numbers` return the numbers of the other types up to their list.
pub fn rann_numbers(p: PathInfo) -> [u64; 9]
    ensures { result ≡ fixed_numbers Kind.Rann 0 (rann_numbers p) }
{
    [
        Kind::Rann as u64,
        21,
        p.flags as u64,
        p.hops.0 as u64,
        p.ttl as u64,
        p.subject.0,
        p.number.0 as u64,
        p.lifetime as u64,
        p.metric.0 as u64,
    ]
}

#[tactic(auto, unfolding(octets::specs::LittleEndian::total))]
pub fn write_rann(out: &mut [u8], at: usize, to: Address, path: PathInfo) -> usize
    requires { at + start_octets Kind.Rann ≤ length out.old }
    ensures value { result ≡ at + start_octets Kind.Rann }
    ensures out_after { out.new ≡ overwrite out.old at (write_frame to (rann path)) }
{
    let widths = [1u8, 1, 1, 1, 1, 6, 4, 4, 4];
    let numbers = rann_numbers(path);
    start_frame(out, at, to, &widths, &numbers);
    at + RANN_START
}

// ---- RREQ

pub fn rreq_numbers(f: RreqFields, n: usize) -> [u64; 11]
    requires { n ≤ most Kind.Rreq }
    ensures { result ≡ fixed_numbers Kind.Rreq n (rreq_numbers f) }
{
    let p = f.path;
    let count = n as u64;
    [
        Kind::Rreq as u64,
        26 + 11 * count,
        p.flags as u64,
        p.hops.0 as u64,
        p.ttl as u64,
        f.request.0 as u64,
        p.subject.0,
        p.number.0 as u64,
        p.lifetime as u64,
        p.metric.0 as u64,
        count,
    ]
}

// Writes a RREQ with n destinations up to its list. `write_target` writes each destination.
#[tactic(auto, unfolding(octets::specs::LittleEndian::total))]
pub fn start_rreq(out: &mut [u8], at: usize, to: Address, f: RreqFields, n: usize) -> usize
    requires n_bound { n ≤ most Kind.Rreq }
    requires start_octets_in_bounds { at + start_octets Kind.Rreq ≤ length out.old }
    ensures value { result ≡ at + start_octets Kind.Rreq }
    ensures out_after { out.new ≡ overwrite out.old at (frame_start to Kind.Rreq n (rreq_numbers f)) }
{
    let widths = [1u8, 1, 1, 1, 1, 4, 6, 4, 4, 4, 1];
    let numbers = rreq_numbers(f, n);
    start_frame(out, at, to, &widths, &numbers);
    at + RREQ_START
}

#[tactic(auto, unfolding(octets::specs::LittleEndian::total))]
pub fn write_target(out: &mut [u8], at: usize, target: Target) -> usize
    requires { at + size_of ListKind.Targets ≤ length out.old }
    ensures value { result ≡ at + size_of ListKind.Targets }
    ensures out_after { out.new ≡ overwrite out.old at (target_octets target) }
{
    let widths = [1u8, 6, 4];
    let numbers = [
        target.flags as u64,
        target.address.0,
        target.number.0 as u64,
    ];
    octets::write_fields(out, at, &widths, &numbers);
    at + list::TARGET
}

// Writes a RREQ with the destinations of a lent list part, unchanged.
pub fn write_rreq(out: &mut [u8], at: usize, to: Address, f: RreqFields, part: &[u8]) -> usize
    requires part_of { PartOf Kind.Rreq part.now }
    requires part_in_bounds { at + start_octets Kind.Rreq + length part.now ≤ length out.old }
    ensures value { result ≡ at + start_octets Kind.Rreq + length part.now }
    ensures out_after { out.new
        ≡ overwrite out.old at (write_frame to (rreq f (targets_in part.now))) }
{
    let place = start_rreq(out, at, to, f, list::entries_in(part, ListKind::Targets));
    octets::write_octets(out, place, part);
    place + part.len()
}

// ---- RREP

pub fn rrep_numbers(f: RrepFields, n: usize) -> [u64; 12]
    requires { n ≤ most Kind.Rrep }
    ensures { result ≡ fixed_numbers Kind.Rrep n (rrep_numbers f) }
{
    let p = f.path;
    let count = n as u64;
    [
        Kind::Rrep as u64,
        32 + 10 * count,
        p.flags as u64,
        p.hops.0 as u64,
        p.ttl as u64,
        p.subject.0,
        p.number.0 as u64,
        p.lifetime as u64,
        p.metric.0 as u64,
        f.source.address.0,
        f.source.number.0 as u64,
        count,
    ]
}

// Writes a RREP with n dependents up to its list. A reply to a RREQ has no dependents.
#[tactic(auto, unfolding(octets::specs::LittleEndian::total))]
pub fn start_rrep(out: &mut [u8], at: usize, to: Address, f: RrepFields, n: usize) -> usize
    requires n_bound { n ≤ most Kind.Rrep }
    requires start_octets_in_bounds { at + start_octets Kind.Rrep ≤ length out.old }
    ensures value { result ≡ at + start_octets Kind.Rrep }
    ensures out_after { out.new ≡ overwrite out.old at (frame_start to Kind.Rrep n (rrep_numbers f)) }
{
    let widths = [1u8, 1, 1, 1, 1, 6, 4, 4, 4, 6, 4, 1];
    let numbers = rrep_numbers(f, n);
    start_frame(out, at, to, &widths, &numbers);
    at + RREP_START
}

// Writes a RREP with the dependents of a lent list part, unchanged. `write_rreq` stays apart, because the fields of the two types
// differ, and so do the functions that write them.
pub fn write_rrep(out: &mut [u8], at: usize, to: Address, f: RrepFields, part: &[u8]) -> usize
    requires part_of { PartOf Kind.Rrep part.now }
    requires part_in_bounds { at + start_octets Kind.Rrep + length part.now ≤ length out.old }
    ensures value { result ≡ at + start_octets Kind.Rrep + length part.now }
    ensures out_after { out.new
        ≡ overwrite out.old at (write_frame to (rrep f (numbered_in part.now))) }
{
    let place = start_rrep(out, at, to, f, list::entries_in(part, ListKind::Dependents));
    octets::write_octets(out, place, part);
    place + part.len()
}

// ---- RERR

pub fn rerr_numbers(f: RerrFields, n: usize) -> [u64; 4]
    requires { n ≤ most Kind.Rerr }
    ensures { result ≡ fixed_numbers Kind.Rerr n (rerr_numbers f) }
{
    let count = n as u64;
    [Kind::Rerr as u64, 2 + 10 * count, f.flags as u64, count]
}

// Writes a RERR with n destinations up to its list. `write_lost` writes each destination.
#[tactic(auto, unfolding(octets::specs::LittleEndian::total))]
pub fn start_rerr(out: &mut [u8], at: usize, to: Address, f: RerrFields, n: usize) -> usize
    requires n_bound { n ≤ most Kind.Rerr }
    requires start_octets_in_bounds { at + start_octets Kind.Rerr ≤ length out.old }
    ensures value { result ≡ at + start_octets Kind.Rerr }
    ensures out_after { out.new ≡ overwrite out.old at (frame_start to Kind.Rerr n (rerr_numbers f)) }
{
    let widths = [1u8, 1, 1, 1];
    let numbers = rerr_numbers(f, n);
    start_frame(out, at, to, &widths, &numbers);
    at + RERR_START
}

#[tactic(auto, unfolding(octets::specs::LittleEndian::total))]
pub fn write_lost(out: &mut [u8], at: usize, lost: LostDestination) -> usize
    requires { at + size_of ListKind.LostDestinations ≤ length out.old }
    ensures value { result ≡ at + size_of ListKind.LostDestinations }
    ensures out_after { out.new ≡ overwrite out.old at (lost_octets lost) }
{
    let widths = [6u8, 4];
    let numbers = [lost.address.0, lost.number.0 as u64];
    octets::write_fields(out, at, &widths, &numbers);
    at + list::LOST
}

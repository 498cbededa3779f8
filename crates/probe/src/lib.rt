// Entries through which tests and benchmarks reach elements: one reads an element as numbers, one writes an element again as a
// frame, and one reports the faults of its list. They are no part of the library that C links.
#![tactic(auto)]

mod again;
mod numbers;

ghost use Rattle.std.specs.Prelude.{◌≡◌, cond, ◌≤◌};
ghost use Rattle.layout.specs.Address.{address_of};
ghost use Rattle.element.specs.Lists.{addresses_in};
ghost use Rattle.refusals.specs.Numbers.{answer_of};
ghost use Rattle.probe.specs.Probes.{faults, faults_in, list_kind, read_numbers, written_again};

use element::list;
use element::list::ListKind;
use layout::address::Address;
use reading::Fields;
use refusals::Refusal;

// Writes the numbers of the element and of its entries, in the order of the octets, and answers 0. For a refused element it
// answers 6, 7 or 8 and writes nothing.
#[unsafe(no_mangle)]
pub extern "C" fn probe_read(element: &[u8], numbers: &mut [u64; 71]) -> u32
    ensures { record { answer = result; memory = numbers.new }
        ≡ read_numbers element.now numbers.old }
{
    // Matches the whole result, as `write_again` does: a `?` moves all fields before the match, in up to 18 instructions more.
    match reading::read(element) {
        Ok(Fields::Announcement(path)) => numbers::put_rann(numbers, path),
        Ok(Fields::Request(f)) => numbers::put_rreq(numbers, f, reading::list_part(element)),
        Ok(Fields::Reply(f)) => numbers::put_rrep(numbers, f, reading::list_part(element)),
        Ok(Fields::Error(f)) => numbers::put_rerr(numbers, f, reading::list_part(element)),
        Err(refusal) => return u32::from(refusal),
    }
    0
}

// Writes the element again as `probe_write` says, or returns its refusal.
fn write_again(
    element: &[u8],
    to: Address,
    out: &mut [u8],
    at: usize,
    singly: bool,
) -> Result<(), Refusal>
    ensures { record { answer = answer_of result; memory = out.new }
        ≡ written_again element.now to out.old at }
{
    match reading::read(element) {
        Ok(Fields::Announcement(path)) => again::write_rann(out, at, to, path),
        Ok(Fields::Request(f)) => again::write_rreq(
            out,
            at,
            to,
            f,
            reading::list_part(element),
            singly,
        ),
        Ok(Fields::Reply(f)) => again::write_rrep(out, at, to, f, reading::list_part(element)),
        Ok(Fields::Error(f)) => again::write_rerr(out, at, to, f, reading::list_part(element)),
        Err(refusal) => Err(refusal),
    }
}

// Writes the element again as a frame from the place `at` on, and answers 0. For a refused element it answers 6, 7 or 8, and if
// the frame does not fit it answers 2. In both cases it writes nothing. If `singly` is 0, the destinations of a RREQ are written
// as its list part has them, otherwise one by one. The octets are the same.
#[unsafe(no_mangle)]
pub extern "C" fn probe_write(
    element: &[u8],
    to: &[u8; 6],
    out: &mut [u8],
    at: usize,
    singly: u32,
) -> u32
    ensures { record { answer = result; memory = out.new }
        ≡ written_again element.now (address_of to.now) out.old at }
{
    refusals::number_of(write_again(element, Address::from(to), out, at, singly != 0))
}

fn value_if(test: bool, value: u32) -> u32
    ensures value { result ≡ cond test value 0 }
    ensures upper_bound { result ≤ value }
{
    if test { value } else { 0 }
}

// Stays a function of its own: inlined, it took 160 octets of stack more.
#[inline(never)]
fn faults_of(part: &[u8], kind: ListKind, address: Address) -> u32
    ensures { result ≡ faults kind address (addresses_in kind part.now) }
{
    value_if(list::has_forbidden(part, kind), 1)
        + value_if(list::has_duplicate(part, kind), 2)
        + value_if(list::has_ones_beside_others(part, kind), 4)
        + value_if(list::contains(part, kind, address), 8)
}

// Returns the kind of the list that the element has. The list part of a RANN is empty, so its kind makes no difference.
fn list_kind(fields: Fields) -> ListKind
    ensures { result ≡ list_kind fields }
{
    match fields {
        Fields::Announcement(_) => ListKind::Dependents,
        Fields::Request(_) => ListKind::Targets,
        Fields::Reply(_) => ListKind::Dependents,
        Fields::Error(_) => ListKind::LostDestinations,
    }
}

// Returns the faults of the list as a sum: 1 for an address that the list may not have, 2 for an address that stands twice, 4 for
// all ones and anything else, 8 if the given address is in the list. Returns 0 for a refused element.
#[unsafe(no_mangle)]
pub extern "C" fn probe_faults(element: &[u8], address: &[u8; 6]) -> u32
    ensures { result ≡ faults_in element.now (address_of address.now) }
{
    let Ok(fields) = reading::read(element) else {
        return 0;
    };
    faults_of(
        reading::list_part(element),
        list_kind(fields),
        Address::from(address),
    )
}

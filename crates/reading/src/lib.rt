// Reads elements: checks refusals 6, 7 and 8, and returns the fixed fields by value and the list part as a part of the caller's
// octets.
#![tactic(auto)]

ghost use Rattle.std.specs.Prelude.{◌≡◌, [], ◌++◌, ◌∷◌, ◌+◌, ◌≤◌, get_or, length};
ghost use Rattle.octets.specs.LittleEndian.{fields_at};
ghost use Rattle.element.specs.Layout.{count_ok, fits, length_with};
ghost use Rattle.element.specs.Octets.{
  count_as,
  fields_as,
  kind_in,
  list_part,
  path_from,
  read_as,
  rerr_from,
  rrep_from,
  rreq_from,
  wrong_length,
};
ghost use Rattle.reading.specs.Reading.{fixed_fields, reading};
ghost use Rattle.element.specs.declared.Kind.{Kind};

use counters::{HopCount, Metric, RequestId, SequenceNumber};
use element::{Kind, NumberedAddress, PathInfo, RerrFields, RrepFields, RreqFields};
use layout::address::Address;
use refusals::Refusal;

// The fixed fields of an element. `list_part` returns the list part.
#[derive(Clone, Copy)]
pub enum Fields {
    Announcement(PathInfo),
    Request(RreqFields),
    Reply(RrepFields),
    Error(RerrFields),
}

fn length_with(kind: Kind, n: u8) -> u32
    ensures { result ≡ length_with kind n }
{
    match kind {
        Kind::Rann => 21,
        Kind::Rreq => 26 + 11 * n as u32,
        Kind::Rrep => 32 + 10 * n as u32,
        Kind::Rerr => 2 + 10 * n as u32,
    }
}

// Reports whether an element of this type may have n entries. Each type has its own line, so that the compiler compares n with
// constants and looks up no bounds.
fn is_count(kind: Kind, n: u8) -> bool
    ensures { result ≡ count_ok kind n }
{
    match kind {
        Kind::Rann => n == 0,
        Kind::Rreq => (1..=20).contains(&n),
        Kind::Rrep => n <= 22,
        Kind::Rerr => (1..=25).contains(&n),
    }
}

// Returns the octet at a place, or 0 if the octets end before it.
fn octet_or_zero(s: &[u8], at: usize) -> u8
    ensures { result ≡ get_or s.now at 0 }
{
    s.get(at).copied().unwrap_or(0)
}

fn count_as(kind: Kind, element: &[u8]) -> u8
    ensures { result ≡ count_as kind element.now }
{
    match kind {
        Kind::Rann => 0,
        Kind::Rreq => octet_or_zero(element, 27),
        Kind::Rrep => octet_or_zero(element, 33),
        Kind::Rerr => octet_or_zero(element, 3),
    }
}

fn has_wrong_length(element: &[u8]) -> bool
    ensures { result ≡ wrong_length element.now }
{
    element.len() < 2 || 2 + element[1] as usize != element.len()
}

// Reports whether Length, the second octet, fits the type and the count.
fn fits_kind(element: &[u8], kind: Kind) -> bool
    requires { 2 ≤ length element.now }
    ensures { result ≡ fits kind (get_or element.now 1 0) (count_as kind element.now) }
{
    let n = count_as(kind, element);
    (element[1] as u32 == length_with(kind, n)) & is_count(kind, n)
}

// Reads flags, hop count and TTL, and the rest of the path, whose subject stands at the place `at`.
fn read_path(element: &[u8], at: usize) -> PathInfo
    requires { at + 18 ≤ length element.now }
    ensures { result ≡ path_from
        (fields_at (1 ∷ 1 ∷ 1 ∷ []) element.now 2 0 ++ fields_at (6 ∷ 4 ∷ 4 ∷ 4 ∷ []) element.now at 0) 3 }
{
    PathInfo {
        flags: octets::read_u8(element, 2),
        hops: HopCount(octets::read_u8(element, 3)),
        ttl: octets::read_u8(element, 4),
        subject: Address(octets::read_u48(element, at)),
        number: SequenceNumber(octets::read_u32(element, at + 6)),
        lifetime: octets::read_u32(element, at + 10),
        metric: Metric(octets::read_u32(element, at + 14)),
    }
}

fn read_rreq(element: &[u8]) -> RreqFields
    requires { 28 ≤ length element.now }
    ensures { result ≡ rreq_from (fields_as Kind.Rreq element.now) }
{
    let request = RequestId(octets::read_u32(element, 5));
    let path = read_path(element, 9);
    RreqFields { request, path }
}

fn read_rrep(element: &[u8]) -> RrepFields
    requires { 34 ≤ length element.now }
    ensures { result ≡ rrep_from (fields_as Kind.Rrep element.now) }
{
    let path = read_path(element, 5);
    let address = Address(octets::read_u48(element, 23));
    let number = SequenceNumber(octets::read_u32(element, 29));
    let source = NumberedAddress { address, number };
    RrepFields { path, source }
}

fn read_rerr(element: &[u8]) -> RerrFields
    requires { 4 ≤ length element.now }
    ensures { result ≡ rerr_from (fields_as Kind.Rerr element.now) }
{
    RerrFields {
        flags: octets::read_u8(element, 2),
    }
}

fn read_fields(element: &[u8], kind: Kind) -> Fields
    requires { 2 + length_with kind 0 ≤ length element.now }
    ensures { result ≡ fixed_fields (read_as kind element.now) }
{
    match kind {
        Kind::Rann => Fields::Announcement(read_path(element, 5)),
        Kind::Rreq => Fields::Request(read_rreq(element)),
        Kind::Rrep => Fields::Reply(read_rrep(element)),
        Kind::Rerr => Fields::Error(read_rerr(element)),
    }
}

// Returns the fixed fields of an element, or the first of refusals 6 to 8 that applies.
pub fn read(element: &[u8]) -> Result<Fields, Refusal>
    ensures { result ≡ reading element.now }
{
    if has_wrong_length(element) {
        return Err(Refusal::ElementLength);
    }
    let Ok(kind) = Kind::try_from(element[0]) else {
        return Err(Refusal::UnknownId);
    };
    if !fits_kind(element, kind) {
        return Err(Refusal::BadCount);
    }
    Ok(read_fields(element, kind))
}

// Returns the place where the list begins: after the octets that an element of this type has without entries. An ID that is none
// of the four counts as that of a RERR here, as in the definition of `list_part`.
fn list_start(element: &[u8]) -> usize
    ensures { result ≡ 2 + length_with (kind_in element.now) 0 }
{
    let kind = Kind::try_from(octet_or_zero(element, 0)).unwrap_or(Kind::Rerr);
    2 + length_with(kind, 0) as usize
}

// Returns the list part of an element, as a part of the caller's octets. It is empty for a RANN, and for octets that end before
// the list.
pub fn list_part(element: &[u8]) -> &[u8]
    ensures { result.now ≡ list_part element.now }
{
    let start = list_start(element).min(element.len());
    &element[start..]
}

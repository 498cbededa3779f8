// The list part of an element and the items of an ask: entries by index, and the faults that their addresses can have.
ghost use Rattle.std.specs.Prelude.{◌≡◌, ◌&&◌, ◌+◌, ◌*◌, ◌<◌, ◌≤◌, length};
ghost use Rattle.octets.specs.LittleEndian.{fields_at};
ghost use Rattle.element.specs.Layout.{before_address, numbered_widths, size_of};
ghost use Rattle.element.specs.declared.list.ListKind.{ListKind};
ghost use Rattle.element.specs.Entries.{entries_in, item_at, lost_at, numbered_at, numbered_from, target_at};
ghost use Rattle.element.specs.Lists.{
  address_in,
  addresses_from,
  addresses_in,
  allowed,
  contains,
  any_forbidden,
  ones_beside_others,
  has_duplicate,
};

use crate::{Item, LostDestination, NumberedAddress, Target};
use counters::SequenceNumber;
use layout::address::Address;

// All ones, as a number: the receiver address that means every neighbour, and the destination of a root request.
pub const ALL_ONES: u64 = 281474976710655;

// How many octets an entry has: a destination of a RREQ, a dependent of a RREP, a destination of a RERR, an item of an ask.
pub const TARGET: usize = 11;

pub const DEPENDENT: usize = 10;

pub const LOST: usize = 10;

pub const ITEM: usize = 7;

// The kind of entries in a list: destinations of a RREQ, dependents of a RREP, destinations of a RERR, or items of an ask.
#[derive(Clone, Copy, PartialEq, Eq)]
pub enum ListKind {
    Targets,
    Dependents,
    LostDestinations,
    Items,
}

// Each kind of entry has a function of its own. `Entry` of crate writing joins the two kinds whose entries are written again one
// by one. No code reads a whole entry of a kind that it gets as a value, and `address_at` reads the addresses of such entries.
pub fn target_at(part: &[u8], i: usize) -> Target
    requires { size_of ListKind.Targets * (i + 1) ≤ length part.now }
    ensures { result ≡ target_at part.now i }
{
    let at = TARGET * i;
    Target {
        flags: octets::read_u8(part, at),
        address: Address(octets::read_u48(part, at + 1)),
        number: SequenceNumber(octets::read_u32(part, at + 7)),
    }
}

// Returns the address and the number that stand from place `at` on.
fn numbered_from(part: &[u8], at: usize) -> NumberedAddress
    requires { at + 10 ≤ length part.now }
    ensures { result ≡ numbered_from (fields_at numbered_widths part.now at 0) }
{
    NumberedAddress {
        address: Address(octets::read_u48(part, at)),
        number: SequenceNumber(octets::read_u32(part, at + 6)),
    }
}

#[tactic(auto, unfolding(crate::specs::Entries::numbered_at))]
pub fn numbered_at(part: &[u8], i: usize) -> NumberedAddress
    requires { size_of ListKind.Dependents * (i + 1) ≤ length part.now }
    ensures { result ≡ numbered_at part.now i }
{
    numbered_from(part, DEPENDENT * i)
}

#[tactic(auto, unfolding(crate::specs::Entries::lost_at))]
pub fn lost_at(part: &[u8], i: usize) -> LostDestination
    requires { size_of ListKind.LostDestinations * (i + 1) ≤ length part.now }
    ensures { result ≡ lost_at part.now i }
{
    let NumberedAddress { address, number } = numbered_from(part, LOST * i);
    LostDestination { address, number }
}

pub fn item_at(part: &[u8], i: usize) -> Item
    requires { size_of ListKind.Items * (i + 1) ≤ length part.now }
    ensures { result ≡ item_at part.now i }
{
    Item {
        flags: octets::read_u8(part, ITEM * i),
        address: Address(octets::read_u48(part, ITEM * i + 1)),
    }
}

// Returns how many octets an entry has.
fn size_of(kind: ListKind) -> usize
    ensures { result ≡ size_of kind }
{
    match kind {
        ListKind::Targets => TARGET,
        ListKind::Dependents => DEPENDENT,
        ListKind::LostDestinations => LOST,
        ListKind::Items => ITEM,
    }
}

// Returns how many octets of an entry stand before its address: 1 if the entry has flags, otherwise 0.
fn before_address(kind: ListKind) -> usize
    ensures { result ≡ before_address kind }
{
    match kind {
        ListKind::Targets => 1,
        ListKind::Dependents => 0,
        ListKind::LostDestinations => 0,
        ListKind::Items => 1,
    }
}

// Returns how many entries a list part has.
pub fn entries_in(part: &[u8], kind: ListKind) -> usize
    ensures { result ≡ entries_in kind part.now }
{
    part.len() / size_of(kind)
}

// Returns the address of entry i. It reads the address alone, at a computed place, so that a loop over a list of any kind has no
// branch on the kind.
fn address_at(part: &[u8], kind: ListKind, i: usize) -> Address
    requires { i < entries_in kind part.now }
    ensures { result ≡ address_in kind part.now i }
{
    Address(octets::read_u48(part, size_of(kind) * i + before_address(kind)))
}

#[tactic(auto, unfolding(crate::specs::Lists::allowed))]
fn is_allowed(kind: ListKind, address: Address) -> bool
    ensures { result ≡ allowed kind address }
{
    match kind {
        ListKind::Targets => address.is_individual() | (address == Address(ALL_ONES)),
        ListKind::Dependents => address.is_individual(),
        ListKind::LostDestinations => address.is_individual(),
        ListKind::Items => address.is_individual(),
    }
}

// Reports whether the list has an address that a list of this kind may not have (refusal 9). `any` over the indexes was tried: it
// took six instructions more for a call, and one more for each address.
//
// A struct of `part` and `kind` with these functions as its methods was tried too. Its methods take its address, which hides the
// kind from the compiler: a RREQ for 1 took 58 instructions more, an ask for 20 took 66 to 79 more, and a RERR with 25 took 143
// more at one row. With `inline(always)` on each method the ask took 58 less, but a RREQ for 20 took 209 to 230 more (6 % at one
// row, 2 % at 16), since the compiler then arranged the loops over its destinations worse.
pub fn has_forbidden(part: &[u8], kind: ListKind) -> bool
    ensures { result ≡ any_forbidden kind (addresses_in kind part.now) }
{
    for i in 0..entries_in(part, kind) {
        if !is_allowed(kind, address_at(part, kind, i)) {
            return true;
        }
    }
    false
}

// Reports whether the entry `from` or a later entry has the address.
fn contains_from(part: &[u8], kind: ListKind, from: usize, address: Address) -> bool
    ensures { result ≡ contains (addresses_from kind part.now from) address }
{
    (from..entries_in(part, kind)).any(|i| address_at(part, kind, i) == address)
}

pub fn contains(part: &[u8], kind: ListKind, address: Address) -> bool
    ensures { result ≡ contains (addresses_in kind part.now) address }
{
    contains_from(part, kind, 0, address)
}

// Reports whether the entry `from` or a later entry has the address. If its mark was not seen, none has it, and the function
// does not search.
fn is_again(part: &[u8], kind: ListKind, from: usize, address: Address, seen: bool) -> bool
    ensures { result ≡ (seen && contains (addresses_from kind part.now from) address) }
{
    seen && contains_from(part, kind, from, address)
}

// Reports whether an address stands twice. From the last entry down, it marks each address in `seen`. Two addresses may share a
// mark, so if the mark is already set it searches the later entries for the address. The loop counts down by hand, because the
// invariant of a `for` over a reversed range knows what the range has given, and not the place `from` that the marks begin at.
fn has_duplicate_by_marks(part: &[u8], kind: ListKind, seen: &mut [bool]) -> bool
    requires { 0 < length seen.old }
    ensures { result ≡ has_duplicate (addresses_in kind part.now) }
{
    let last = seen.len() - 1;
    let mut from = entries_in(part, kind);
    while 0 < from {
        let i = from - 1;
        let address = address_at(part, kind, i);
        let h = address.mark(last);
        if is_again(part, kind, from, address, seen[h]) {
            return true;
        }
        seen[h] = true;
        from = i;
    }
    false
}

// Reports whether an address stands twice. A list with at most one entry needs no marks.
pub fn has_duplicate(part: &[u8], kind: ListKind) -> bool
    ensures { result ≡ has_duplicate (addresses_in kind part.now) }
{
    if entries_in(part, kind) <= 1 {
        return false;
    }
    let mut seen = [false; 256];
    has_duplicate_by_marks(part, kind, &mut seen)
}

pub fn has_ones_beside_others(part: &[u8], kind: ListKind) -> bool
    ensures { result ≡ ones_beside_others (addresses_in kind part.now) }
{
    contains(part, kind, Address(ALL_ONES)) & (1 < entries_in(part, kind))
}

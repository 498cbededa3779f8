// Refusals 9, 10 and 14 for an element with a path. Their tests depend on the type of the element.
ghost use Rattle.std.specs.Prelude.{◌≡◌, ◌&&◌, []};
ghost use Rattle.element.specs.Element.{rann, rrep, rreq};
ghost use Rattle.element.specs.Entries.{targets_in};
ghost use Rattle.element.specs.Lists.{addresses_in};
ghost use Rattle.element.specs.declared.list.ListKind.{ListKind};
ghost use Rattle.element.specs.Flags.{unicast};
ghost use Rattle.rules.specs.Lists.{any};
ghost use Rattle.rules.specs.Receive.{has_bad_address, has_bad_list, is_mismarked, several_or_all};
ghost use Rattle.receive.specs.Checks.{faults_of};

use element::list::ListKind;
use element::{PathInfo, RrepFields, RreqFields, Target, flags, list};
use layout::address::Address;

// Holds whether the element is at fault in its addresses (9), in its list or in how its addresses go together (10), and in its
// TTL (14).
#[derive(Clone, Copy)]
pub struct Faults {
    pub address: bool,
    pub list: bool,
    pub ttl: bool,
}

pub fn of_rann(p: PathInfo) -> Faults
    ensures { result ≡ faults_of (rann p) }
{
    Faults {
        address: !p.subject.is_individual(),
        list: false,
        ttl: false,
    }
}

// Reports whether the originator or a destination is not individual. A destination may also be all ones.
fn rreq_has_bad_address(f: RreqFields, part: &[u8]) -> bool
    ensures { result ≡ has_bad_address (rreq f (targets_in part.now)) }
{
    !f.path.subject.is_individual() | list::has_forbidden(part, ListKind::Targets)
}

// Reports whether there are several destinations or all ones.
fn is_several_or_all(part: &[u8]) -> bool
    ensures { result ≡ several_or_all (addresses_in ListKind.Targets part.now) }
{
    (1 < list::entries_in(part, ListKind::Targets))
        | list::contains(part, ListKind::Targets, Address(list::ALL_ONES))
}

// Reports whether the RREQ is unicast with several destinations or all ones. Most RREQs are not unicast, and this function
// does not search their lists.
fn is_unicast_to_several(p: PathInfo, part: &[u8]) -> bool
    ensures { result ≡ (unicast p && several_or_all (addresses_in ListKind.Targets part.now)) }
{
    if !flags::is_unicast(p) {
        return false;
    }
    is_several_or_all(part)
}

// Reports whether the number of a destination is marked unknown although it is not 0.
fn is_mismarked(q: Target) -> bool
    ensures { result ≡ is_mismarked q }
{
    flags::is_number_unknown(q) & (q.number.0 != 0)
}

// The loop is written as that of `list::has_forbidden`, which has the reason.
fn has_mismarked(part: &[u8]) -> bool
    ensures { result ≡ any is_mismarked (targets_in part.now) }
{
    let n = part.len() / list::TARGET;
    for i in 0..n {
        if is_mismarked(list::target_at(part, i)) {
            return true;
        }
    }
    false
}

// Reports whether the list has a fault: a destination stands twice; all ones and anything else; the originator among the
// destinations; several destinations or all ones in a unicast RREQ; a number other than 0 that is marked unknown.
fn rreq_has_bad_list(f: RreqFields, part: &[u8]) -> bool
    ensures { result ≡ has_bad_list (rreq f (targets_in part.now)) }
{
    if list::has_duplicate(part, ListKind::Targets) {
        return true;
    }
    if list::has_ones_beside_others(part, ListKind::Targets) {
        return true;
    }
    if list::contains(part, ListKind::Targets, f.path.subject) {
        return true;
    }
    if is_unicast_to_several(f.path, part) {
        return true;
    }
    has_mismarked(part)
}

pub fn of_rreq(f: RreqFields, part: &[u8]) -> Faults
    ensures { result ≡ faults_of (rreq f (targets_in part.now)) }
{
    Faults {
        address: rreq_has_bad_address(f, part),
        list: rreq_has_bad_list(f, part),
        ttl: false,
    }
}

// Does not judge the dependents.
pub fn of_rrep(f: RrepFields) -> Faults
    ensures { result ≡ faults_of (rrep f []) }
{
    let subject = f.path.subject;
    let source = f.source.address;
    Faults {
        address: !subject.is_individual() | !source.is_individual(),
        list: subject == source,
        ttl: f.path.ttl < 2,
    }
}

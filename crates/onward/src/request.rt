// Forwards a RREQ with its kept destinations.
ghost use Rattle.std.specs.Prelude.{◌≡◌, false, ◌+◌, ◌≤◌, length};
ghost use Rattle.rules.specs.Learn.{Extends};
ghost use Rattle.octets.specs.LittleEndian.{overwrite};
ghost use Rattle.element.specs.Layout.{PartOf};
ghost use Rattle.element.specs.declared.Kind.{Kind};
ghost use Rattle.rules.specs.Onward.{rreq_onward};
ghost use Rattle.rules.specs.Exit.{frame_octets};
ghost use Rattle.calls.specs.Answers.{emitted};
ghost use Rattle.onward.specs.Kept.{kept_among};
ghost use Rattle.onward.specs.Sent.{request_receiver, sent_with, unicast_to_several};
ghost use Rattle.layout.specs.Layout.{Sized};

use crate::kept;
use calls::Emitted;
use element::{PathInfo, RreqFields, flags, list};
use layout::address::Address;
use rules::Arrival;
use table::search;

// Returns all ones, or for a unicast RREQ the active next hop of its destination, if there is one.
#[tactic(auto, unfolding(crate::specs::Sent::request_receiver))]
fn receiver_of(table: &[u8], clock: u64, p: PathInfo, part: &[u8]) -> Option<Address>
    requires part_of { PartOf Kind.Rreq part.now }
    ensures { result ≡ request_receiver table.now clock p part.now }
{
    if !flags::is_unicast(p) {
        return Some(Address(list::ALL_ONES));
    }
    search::active_next(table, clock, list::target_at(part, 0).address)
}

// Writes a RREQ with the kept destinations at place `at`, if any destination is kept. The destinations are written before the
// start of the RREQ, because that start has their count.
fn send_kept(
    output: &mut [u8],
    at: usize,
    to: Address,
    f: RreqFields,
    table: &[u8],
    clock: u64,
    part: &[u8],
) -> Emitted
    requires sized { Sized table.now }
    requires part_of { PartOf Kind.Rreq part.now }
    requires at_in_bounds { at + 254 ≤ length output.old }
    ensures value { result ≡ emitted (sent_with to f (kept_among table.now clock part.now)) }
    ensures output_after { output.new
        ≡ overwrite output.old at
        (frame_octets (sent_with to f (kept_among table.now clock part.now))) }
{
    let start = at + writing::RREQ_START;
    let end = kept::write_kept(output, start, table, clock, part);
    if end == start {
        return Emitted::nothing();
    }
    writing::start_rreq(output, at, to, f, (end - start) / list::TARGET);
    Emitted::one_frame(end - at)
}

// Writes the forwarded RREQ at place `at`, after the replies, if its TTL is at least 2 and it has a receiver.
pub fn send_on(
    output: &mut [u8],
    at: usize,
    table: &[u8],
    a: Arrival,
    f: RreqFields,
    part: &[u8],
) -> Emitted
    requires sized { Sized table.now }
    requires at_in_bounds { at + 254 ≤ length output.old }
    requires part_of { PartOf Kind.Rreq part.now }
    requires part_value { unicast_to_several f.path part.now ≡ false }
    requires extends { Extends a f.path }
    ensures value { result ≡ emitted
        (rreq_onward table.now a f (kept_among table.now a.clock part.now)) }
    ensures output_after { output.new
        ≡ overwrite output.old at
        (frame_octets (rreq_onward table.now a f
        (kept_among table.now a.clock part.now))) }
{
    if f.path.ttl < 2 {
        return Emitted::nothing();
    }
    let Some(to) = receiver_of(table, a.clock, f.path, part) else {
        return Emitted::nothing();
    };
    let forwarded = RreqFields {
        path: crate::onward(a, f.path),
        ..f
    };
    send_kept(output, at, to, forwarded, table, a.clock, part)
}

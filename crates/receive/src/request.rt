// Receives a RREQ.
ghost use Rattle.std.specs.Prelude.{false, ◌≡◌, ◌+◌, ◌≤◌, length};
ghost use Rattle.layout.specs.Row.{max_clock};
ghost use Rattle.rules.specs.Learn.{Extends};
ghost use Rattle.octets.specs.LittleEndian.{overwrite};
ghost use Rattle.element.specs.Layout.{PartOf};
ghost use Rattle.element.specs.declared.Kind.{Kind};
ghost use Rattle.element.specs.Element.{rreq};
ghost use Rattle.element.specs.Entries.{targets_in};
ghost use Rattle.rules.specs.Decision.{decide};
ghost use Rattle.rules.specs.Destinations.{all_answered};
ghost use Rattle.rules.specs.Exit.{at_exit, frame_octets, lend, least_output};
ghost use Rattle.rules.specs.Receive.{judging};
ghost use Rattle.calls.specs.Answers.{exit_of};
ghost use Rattle.onward.specs.Sent.{unicast_to_several};
ghost use Rattle.receive.specs.Sent.{frames_after, sent_for, together};
ghost use Rattle.layout.specs.Layout.{Sized};

use crate::{faults, path};
use calls::{Emitted, clocked};
use counters::SequenceNumber;
use destinations::replies;
use destinations::replies::Replied;
use element::RreqFields;
use layout::row;
use onward::request;
use refusals::Refusal;
use rules::Arrival;

// Holds the own number after a RREQ was answered, and what was written.
#[derive(Clone, Copy)]
pub struct Sent {
    pub number: SequenceNumber,
    pub emitted: Emitted,
}

// Adds up the replies, which start at place `at`, and the RREQ that is forwarded after them.
fn in_all(at: usize, replied: Replied, onward: Emitted) -> Sent
    requires frames_bound { replied.frames ≤ 20 }
    requires at_le_place { at ≤ replied.place }
    requires place_bound { replied.place ≤ at + 800 }
    requires frames_bound_2 { onward.frames ≤ 1 }
    requires octets_bound { onward.octets ≤ 254 }
    ensures { result ≡ together at replied onward }
{
    Sent {
        number: replied.number,
        emitted: Emitted {
            frames: replied.frames + onward.frames,
            octets: (replied.place - at) as u32 + onward.octets,
        },
    }
}

// Writes the replies to the destinations, starting at place `at`, and after them the RREQ with the kept destinations.
fn answer(
    output: &mut [u8],
    at: usize,
    table: &[u8],
    a: Arrival,
    f: RreqFields,
    number: SequenceNumber,
    part: &[u8],
) -> Sent
    requires sized { Sized table.now }
    requires at_in_bounds { at + 1054 ≤ length output.old }
    requires part_of { PartOf Kind.Rreq part.now }
    requires part_value { unicast_to_several f.path part.now ≡ false }
    requires extends { Extends a f.path }
    ensures value { result ≡ sent_for table.now a f
        (all_answered table.now a f.path number (targets_in part.now)) }
    ensures output_after { output.new
        ≡ overwrite output.old at
        (frame_octets (frames_after table.now a f
        (all_answered table.now a f.path number (targets_in part.now)))) }
{
    let replied = replies::write_replies(output, at, table, a, f.path, number, part);
    let onward = request::send_on(output, replied.place, table, a, f, part);
    in_all(at, replied, onward)
}

// Refuses the RREQ, or does steps 1 and 2, writes the replies, forwards the RREQ and stores the own number and the clock.
pub fn receive(
    table: &mut [u8],
    output: &mut [u8],
    a: Arrival,
    f: RreqFields,
    part: &[u8],
) -> Result<Emitted, Refusal>
    requires sized { Sized table.old }
    requires least_output_in_bounds { least_output ≤ length output.old }
    requires clock_le_max_clock { a.clock ≤ max_clock }
    requires part_of { PartOf Kind.Rreq part.now }
    ensures { exit_of result (lend table.new) output.new
        ≡ at_exit (lend table.old) output.old
        (decide (judging (lend table.old) a (rreq f (targets_in part.now)))) }
{
    path::check_and_learn(table, a, f.path, faults::of_rreq(f, part))?;
    let head = row::read_head(table);
    let sent = answer(output, 0, table, a, f, head.number, part);
    clocked::store_head(table, head, sent.number, a.clock);
    Ok(sent.emitted)
}

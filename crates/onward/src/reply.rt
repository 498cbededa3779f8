// Forwards a RREP towards its source, with its dependents unread.
ghost use Rattle.std.specs.Prelude.{◌≡◌, ◌+◌, ◌≤◌, length};
ghost use Rattle.rules.specs.Learn.{Extends};
ghost use Rattle.octets.specs.LittleEndian.{overwrite};
ghost use Rattle.element.specs.Layout.{PartOf};
ghost use Rattle.element.specs.declared.Kind.{Kind};
ghost use Rattle.element.specs.Entries.{numbered_in};
ghost use Rattle.rules.specs.Onward.{rrep_onward};
ghost use Rattle.rules.specs.Exit.{frame_octets};
ghost use Rattle.calls.specs.Answers.{emitted};
ghost use Rattle.onward.specs.Sent.{reply_receiver};
ghost use Rattle.layout.specs.Layout.{Sized};

use calls::Emitted;
use element::RrepFields;
use layout::address::Address;
use layout::row;
use rules::Arrival;
use table::search;

// Returns the active next hop of the source. Returns None if there is none, or if the source is this point.
#[tactic(auto, unfolding(crate::specs::Sent::reply_receiver))]
fn receiver_of(table: &[u8], clock: u64, source: Address) -> Option<Address>
    requires { Sized table.now }
    ensures { result ≡ reply_receiver table.now clock source }
{
    if source == row::read_head(table).own {
        return None;
    }
    search::active_next(table, clock, source)
}

// Writes the forwarded RREP at place `at` of the output, if it has a receiver.
pub fn send_on(
    output: &mut [u8],
    at: usize,
    table: &[u8],
    a: Arrival,
    f: RrepFields,
    part: &[u8],
) -> Emitted
    requires sized { Sized table.now }
    requires extends { Extends a f.path }
    requires le_ttl { 1 ≤ f.path.ttl }
    requires part_of { PartOf Kind.Rrep part.now }
    requires at_in_bounds { at + 260 ≤ length output.old }
    ensures value { result ≡ emitted (rrep_onward table.now a f (numbered_in part.now)) }
    ensures output_after { output.new
        ≡ overwrite output.old at
        (frame_octets (rrep_onward table.now a f (numbered_in part.now))) }
{
    let Some(next) = receiver_of(table, a.clock, f.source.address) else {
        return Emitted::nothing();
    };
    let forwarded = RrepFields {
        path: crate::onward(a, f.path),
        ..f
    };
    let end = writing::write_rrep(output, at, next, forwarded, part);
    Emitted::one_frame(end - at)
}

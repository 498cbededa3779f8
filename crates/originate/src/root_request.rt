// Root request: the point sends a RREQ of its own for all ones.
ghost use Rattle.std.specs.Prelude.{◌≡◌, [], ◌∷◌, ◌≤◌, length, Ok};
ghost use Rattle.rules.specs.Exit.{at_exit, lend, least_output};
ghost use Rattle.rules.specs.Exits.{root_request_exit};
ghost use Rattle.rules.specs.Originate.{is_root_flags, requested, root_target};
ghost use Rattle.calls.specs.Answers.{exit_of};
ghost use Rattle.layout.specs.Layout.{Sized};

use crate::common;
use calls::Emitted;
use counters::SequenceNumber;
use element::{Target, list};
use layout::address::Address;
use layout::row;
use refusals::Refusal;

// Reports whether a root request may have the flags. Portal and reply wanted may be set. Unicast and the reserved bits may not
// be set.
fn is_root_flags(flags: u8) -> bool
    ensures { result ≡ is_root_flags flags }
{
    (flags == 0) | (flags == 1) | (flags == 4) | (flags == 5)
}

// Returns the only destination of a root request: all ones, with DO, RF and 'number unknown' set and number 0.
fn root_target() -> Target
    ensures { result ≡ root_target }
{
    Target {
        flags: 7,
        address: Address(list::ALL_ONES),
        number: SequenceNumber(0),
    }
}

// Writes the table and the frame of an accepted root request.
fn send(table: &mut [u8], output: &mut [u8], flags: u8, lifetime: u32) -> Result<Emitted, Refusal>
    requires sized { Sized table.old }
    requires least_output_in_bounds { least_output ≤ length output.old }
    ensures { exit_of result (lend table.new) output.new
        ≡ at_exit (lend table.old) output.old
        (Ok (requested (lend table.old) flags lifetime (root_target ∷ []))) }
{
    let head = common::number_head(row::read_head(table), true);
    row::write_head(table, head);
    let place = common::start_request(output, head, flags, lifetime, 1);
    let octets = writing::write_target(output, place, root_target());
    Ok(Emitted::one_frame(octets))
}

pub fn root_request(
    table: &mut [u8],
    output: &mut [u8],
    flags: u8,
    lifetime: u32,
) -> Result<Emitted, Refusal>
    ensures { exit_of result (lend table.new) output.new
        ≡ root_request_exit (lend table.old) output.old flags lifetime }
{
    common::check(table, output, !is_root_flags(flags), lifetime)?;
    send(table, output, flags, lifetime)
}

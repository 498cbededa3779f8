// Announce: the point sends a RANN of its own.
ghost use Rattle.std.specs.Prelude.{◌≡◌, ◌≤◌, length, Ok};
ghost use Rattle.rules.specs.Exit.{at_exit, lend, least_output};
ghost use Rattle.rules.specs.Exits.{announce_exit};
ghost use Rattle.rules.specs.Originate.{announced};
ghost use Rattle.calls.specs.Answers.{exit_of};
ghost use Rattle.layout.specs.Layout.{Sized};

use crate::common;
use calls::Emitted;
use element::list;
use layout::address::Address;
use layout::row;
use refusals::Refusal;

// Writes the table and the frame of an accepted announcement.
fn send(table: &mut [u8], output: &mut [u8], flags: u8, lifetime: u32) -> Result<Emitted, Refusal>
    requires sized { Sized table.old }
    requires least_output_in_bounds { least_output ≤ length output.old }
    ensures { exit_of result (lend table.new) output.new
        ≡ at_exit (lend table.old) output.old
        (Ok (announced (lend table.old) flags lifetime)) }
{
    let head = common::number_head(row::read_head(table), false);
    row::write_head(table, head);
    let path = common::own_path(head, flags, lifetime);
    let octets = writing::write_rann(output, 0, Address(list::ALL_ONES), path);
    Ok(Emitted::one_frame(octets))
}

pub fn announce(
    table: &mut [u8],
    output: &mut [u8],
    flags: u8,
    lifetime: u32,
) -> Result<Emitted, Refusal>
    ensures { exit_of result (lend table.new) output.new
        ≡ announce_exit (lend table.old) output.old flags lifetime }
{
    common::check(table, output, 1 < flags, lifetime)?;
    send(table, output, flags, lifetime)
}

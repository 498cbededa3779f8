// Reports a broken neighbour.
ghost use Rattle.std.specs.Prelude.{◌≡◌, ◌≤◌, length, Ok};
ghost use Rattle.layout.specs.Layout.{Sized};
ghost use Rattle.rules.specs.Break.{breaking, broken_off};
ghost use Rattle.rules.specs.Exit.{at_exit, lend, least_output};
ghost use Rattle.rules.specs.Exits.{break_exit};
ghost use Rattle.calls.specs.Answers.{answer_to, exit_of};
ghost use Rattle.breaking.specs.Links.{breaks};

use crate::report;
use crate::rows::BrokenLink;
use calls::{Emitted, clocked};
use layout::address::Address;
use layout::row;
use refusals::Refusal;

fn check(table: &[u8], output: &[u8], clock: u64, neighbour: Address) -> Result<(), Refusal>
    ensures { result ≡ answer_to
        (breaking (lend table.now) (length output.now) clock neighbour).checks }
{
    clocked::check_operands(table, output, clock, neighbour)?;
    clocked::check_state(table, clock, neighbour)
}

// Writes the table and the frames of an accepted break. The clock is stored even if no row breaks.
fn break_off(table: &mut [u8], output: &mut [u8], link: BrokenLink) -> Result<Emitted, Refusal>
    requires sized { Sized table.old }
    requires least_output_in_bounds { least_output ≤ length output.old }
    ensures { exit_of result (lend table.new) output.new
        ≡ at_exit (lend table.old) output.old
        (Ok (broken_off (lend table.old) link.clock (breaks link))) }
{
    let head = row::read_head(table);
    let reported = report::report(output, 0, table, link);
    link.lose_rows(table, reported.lost);
    clocked::store_head(table, head, head.number, link.clock);
    Ok(reported.emitted())
}

pub fn break_neighbour(
    table: &mut [u8],
    output: &mut [u8],
    clock: u64,
    neighbour: Address,
) -> Result<Emitted, Refusal>
    ensures { exit_of result (lend table.new) output.new
        ≡ break_exit (lend table.old) output.old clock neighbour }
{
    check(table, output, clock, neighbour)?;
    break_off(table, output, BrokenLink { clock, neighbour })
}

// Receives a RANN.
ghost use Rattle.std.specs.Prelude.{◌≡◌, ◌≤◌, length};
ghost use Rattle.layout.specs.Row.{max_clock};
ghost use Rattle.element.specs.Element.{rann};
ghost use Rattle.rules.specs.Decision.{decide};
ghost use Rattle.rules.specs.Exit.{at_exit, lend, least_output};
ghost use Rattle.rules.specs.Receive.{judging};
ghost use Rattle.calls.specs.Answers.{exit_of};
ghost use Rattle.layout.specs.Layout.{Sized};

use crate::{faults, path};
use calls::{Emitted, clocked};
use element::PathInfo;
use layout::row;
use onward::announcement;
use refusals::Refusal;
use rules::Arrival;

// Refuses the RANN, or does steps 1 and 2, forwards it and stores the clock.
pub fn receive(
    table: &mut [u8],
    output: &mut [u8],
    a: Arrival,
    p: PathInfo,
) -> Result<Emitted, Refusal>
    requires sized { Sized table.old }
    requires least_output_in_bounds { least_output ≤ length output.old }
    requires clock_le_max_clock { a.clock ≤ max_clock }
    ensures { exit_of result (lend table.new) output.new
        ≡ at_exit (lend table.old) output.old (decide (judging (lend table.old) a (rann p))) }
{
    path::check_and_learn(table, a, p, faults::of_rann(p))?;
    let head = row::read_head(table);
    let emitted = announcement::send_on(output, 0, a, p);
    clocked::store_head(table, head, head.number, a.clock);
    Ok(emitted)
}

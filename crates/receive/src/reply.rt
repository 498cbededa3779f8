// Receives a RREP.
ghost use Rattle.std.specs.Prelude.{◌≡◌, ◌≤◌, length};
ghost use Rattle.layout.specs.Row.{max_clock};
ghost use Rattle.element.specs.Layout.{PartOf};
ghost use Rattle.element.specs.declared.Kind.{Kind};
ghost use Rattle.element.specs.Element.{rrep};
ghost use Rattle.element.specs.Entries.{numbered_in};
ghost use Rattle.rules.specs.Decision.{decide};
ghost use Rattle.rules.specs.Exit.{at_exit, lend, least_output};
ghost use Rattle.rules.specs.Receive.{judging};
ghost use Rattle.calls.specs.Answers.{exit_of};
ghost use Rattle.layout.specs.Layout.{Sized};

use crate::{faults, path};
use calls::{Emitted, clocked};
use element::RrepFields;
use layout::row;
use onward::reply;
use refusals::Refusal;
use rules::Arrival;

// Refuses the RREP, or does steps 1 and 2, forwards it and stores the clock.
pub fn receive(
    table: &mut [u8],
    output: &mut [u8],
    a: Arrival,
    f: RrepFields,
    part: &[u8],
) -> Result<Emitted, Refusal>
    requires sized { Sized table.old }
    requires least_output_in_bounds { least_output ≤ length output.old }
    requires clock_le_max_clock { a.clock ≤ max_clock }
    requires part_of { PartOf Kind.Rrep part.now }
    ensures { exit_of result (lend table.new) output.new
        ≡ at_exit (lend table.old) output.old
        (decide (judging (lend table.old) a (rrep f (numbered_in part.now)))) }
{
    path::check_and_learn(table, a, f.path, faults::of_rrep(f))?;
    let head = row::read_head(table);
    let emitted = reply::send_on(output, 0, table, a, f, part);
    clocked::store_head(table, head, head.number, a.clock);
    Ok(emitted)
}

// Receives an element: checks its refusals in order, and then does what its type asks.
#![tactic(auto)]

mod announcement;
mod error;
mod faults;
mod path;
mod reply;
mod request;

ghost use Rattle.std.specs.Prelude.{◌≡◌, ◌≤◌, length};
ghost use Rattle.layout.specs.Row.{max_clock};
ghost use Rattle.rules.specs.Decision.{decide};
ghost use Rattle.rules.specs.Exit.{at_exit, lend, least_output};
ghost use Rattle.rules.specs.Exits.{receive_exit};
ghost use Rattle.rules.specs.Receive.{arrival_checks, reading_octets};
ghost use Rattle.calls.specs.Answers.{answer_to, exit_of};
ghost use Rattle.layout.specs.Layout.{Sized};

use calls::{Emitted, clocked};
use reading::Fields;
use refusals::Refusal;
use rules::Arrival;

// Checks refusals 1 to 5.
fn check_arrival(table: &[u8], output: &[u8], a: Arrival) -> Result<(), Refusal>
    ensures { result ≡ answer_to (arrival_checks table.now (length output.now) a) }
{
    clocked::check_operands(table, output, a.clock, a.transmitter)?;
    if a.link.0 == 0 {
        return Err(Refusal::NoLink);
    }
    Ok(())
}

// Reads the element and receives it by its type. The caller must check refusals 1 to 5 first. What they find stands in three
// clauses here and in each function below. No struct has them. The table and the output are lent for writing. An arrival with a
// checked clock, as a struct, would be taken apart in each of these functions, because what they call takes an Arrival.
fn receive_element(
    table: &mut [u8],
    output: &mut [u8],
    a: Arrival,
    element: &[u8],
) -> Result<Emitted, Refusal>
    requires sized { Sized table.old }
    requires least_output_in_bounds { least_output ≤ length output.old }
    requires clock_le_max_clock { a.clock ≤ max_clock }
    ensures { exit_of result (lend table.new) output.new
        ≡ at_exit (lend table.old) output.old
        (decide (reading_octets (lend table.old) a element.now)) }
{
    let fields = reading::read(element)?;
    match fields {
        Fields::Announcement(p) => announcement::receive(table, output, a, p),
        Fields::Request(f) => request::receive(table, output, a, f, reading::list_part(element)),
        Fields::Reply(f) => reply::receive(table, output, a, f, reading::list_part(element)),
        Fields::Error(f) => error::receive(table, output, a, f, reading::list_part(element)),
    }
}

pub fn receive(
    table: &mut [u8],
    output: &mut [u8],
    a: Arrival,
    element: &[u8],
) -> Result<Emitted, Refusal>
    ensures { exit_of result (lend table.new) output.new
        ≡ receive_exit (lend table.old) output.old a element.now }
{
    check_arrival(table, output, a)?;
    receive_element(table, output, a, element)
}

// Receives a RERR.
ghost use Rattle.std.specs.Prelude.{◌≡◌, ◌≤◌, length, Ok};
ghost use Rattle.element.specs.Element.{rerr};
ghost use Rattle.element.specs.Entries.{lost_in};
ghost use Rattle.element.specs.Layout.{PartOf};
ghost use Rattle.element.specs.declared.Kind.{Kind};
ghost use Rattle.rules.specs.Decision.{decide};
ghost use Rattle.rules.specs.Exit.{at_exit, lend, least_output};
ghost use Rattle.rules.specs.Receive.{judging, received};
ghost use Rattle.calls.specs.Answers.{answer_to, exit_of};
ghost use Rattle.receive.specs.Checks.{error_state_checks};
ghost use Rattle.layout.specs.Layout.{Sized};

use calls::{Emitted, clocked};
use element::list::ListKind;
use element::{RerrFields, list};
use layout::row;
use matches::{matching, report, rows};
use refusals::Refusal;
use rules::Arrival;

// Checks the state: refusals 21 to 23 and 26.
fn check_state(table: &[u8], a: Arrival, part: &[u8]) -> Result<(), Refusal>
    requires { Sized table.now }
    ensures { result ≡ answer_to (error_state_checks table.now a part.now) }
{
    clocked::check_state(table, a.clock, a.transmitter)?;
    if matching::matches_nothing(table, a, part) {
        return Err(Refusal::NoMatch);
    }
    Ok(())
}

// Checks the destinations, refusals 9 and 10, and then the state. This function does not read the fields f, but its contract
// names the whole element.
fn check(table: &[u8], a: Arrival, f: RerrFields, part: &[u8]) -> Result<(), Refusal>
    requires { Sized table.now }
    ensures { result ≡ answer_to (judging (lend table.now) a (rerr f (lost_in part.now))).checks }
{
    if list::has_forbidden(part, ListKind::LostDestinations) {
        return Err(Refusal::BadAddress);
    }
    if list::has_duplicate(part, ListKind::LostDestinations) {
        return Err(Refusal::BadList);
    }
    check_state(table, a, part)
}

// Sends one RERR with the matches, invalidates the rows of the matches and stores the clock.
fn take(
    table: &mut [u8],
    output: &mut [u8],
    a: Arrival,
    f: RerrFields,
    part: &[u8],
) -> Result<Emitted, Refusal>
    requires sized { Sized table.old }
    requires least_output_in_bounds { least_output ≤ length output.old }
    requires part_of { PartOf Kind.Rerr part.now }
    ensures { exit_of result (lend table.new) output.new
        ≡ at_exit (lend table.old) output.old
        (Ok (received (lend table.old) a (rerr f (lost_in part.now)))) }
{
    let head = row::read_head(table);
    let octets = report::write_error(output, 0, table, a, f, part);
    rows::lose_matches(table, a, part);
    clocked::store_head(table, head, head.number, a.clock);
    Ok(Emitted::one_frame(octets))
}

pub fn receive(
    table: &mut [u8],
    output: &mut [u8],
    a: Arrival,
    f: RerrFields,
    part: &[u8],
) -> Result<Emitted, Refusal>
    requires sized { Sized table.old }
    requires least_output_in_bounds { least_output ≤ length output.old }
    requires part_of { PartOf Kind.Rerr part.now }
    ensures { exit_of result (lend table.new) output.new
        ≡ at_exit (lend table.old) output.old
        (decide (judging (lend table.old) a (rerr f (lost_in part.now)))) }
{
    check(table, a, f, part)?;
    take(table, output, a, f, part)
}

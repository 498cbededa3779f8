// Shared parts of receive and break. Both take an output, a neighbour and a clock, and both store the clock when accepted.
ghost use Rattle.std.specs.Prelude.{◌≡◌, length};
ghost use Rattle.layout.specs.Row.{head_with};
ghost use Rattle.layout.specs.Layout.{put_head, Sized};
ghost use Rattle.rules.specs.Checks.{operand_checks, state_checks};
ghost use Rattle.calls.specs.Answers.{answer_to};

use counters::SequenceNumber;
use layout::address::Address;
use layout::row;
use layout::row::Head;
use refusals::Refusal;
use table::legal;

// Checks refusals 1 to 4.
pub fn check_operands(
    table: &[u8],
    output: &[u8],
    clock: u64,
    neighbour: Address,
) -> Result<(), Refusal>
    ensures { result ≡ answer_to (operand_checks table.now (length output.now) clock neighbour) }
{
    if !legal::is_sized(table) {
        return Err(Refusal::TableLength);
    }
    if output.len() < crate::LEAST_OUTPUT {
        return Err(Refusal::ShortOutput);
    }
    if row::MAX_CLOCK < clock {
        return Err(Refusal::ClockTooLarge);
    }
    if !neighbour.is_individual() {
        return Err(Refusal::BadNeighbour);
    }
    Ok(())
}

// Checks refusals 21 to 23.
pub fn check_state(table: &[u8], clock: u64, neighbour: Address) -> Result<(), Refusal>
    requires { Sized table.now }
    ensures { result ≡ answer_to (state_checks table.now clock neighbour) }
{
    if !legal::is_table(table) {
        return Err(Refusal::NotATable);
    }
    let head = row::read_head(table);
    if clock < head.clock {
        return Err(Refusal::OldClock);
    }
    if neighbour == head.own {
        return Err(Refusal::FromItself);
    }
    Ok(())
}

// Writes the given head, with the given own number and latest clock, to the table.
pub fn store_head(table: &mut [u8], head: Head, number: SequenceNumber, clock: u64)
    requires { Sized table.old }
    ensures { table.new ≡ put_head table.old (head_with number head.request clock head) }
{
    row::write_head(table, head.with(number, head.request, clock));
}

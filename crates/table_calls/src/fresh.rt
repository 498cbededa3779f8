// Makes a fresh table.
ghost use Rattle.std.specs.Prelude.{◌≡◌};
ghost use Rattle.rules.specs.Exits.{fresh_exit};
ghost use Rattle.calls.specs.Answers.{table_exit_of};

use counters::SequenceNumber;
use layout::address::Address;
use refusals::Refusal;
use table::{legal, store};

pub fn make_fresh(table: &mut [u8], own: Address, number: SequenceNumber) -> Result<(), Refusal>
    ensures { table_exit_of result table.new ≡ fresh_exit table.old own number }
{
    if !legal::is_sized(table) {
        return Err(Refusal::TableLength);
    }
    if !own.is_individual() {
        return Err(Refusal::BadAddress);
    }
    store::make_fresh(table, own, number);
    Ok(())
}

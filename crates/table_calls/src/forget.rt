// Forgets a destination.
ghost use Rattle.std.specs.Prelude.{◌≡◌, ◌+◌, ◌≤◌, length};
ghost use Rattle.std.specs.Result.{IfOk};
ghost use Rattle.layout.specs.Layout.{place, row_octets};
ghost use Rattle.rules.specs.Exits.{forget_exit};
ghost use Rattle.rules.specs.Forget.{forget};
ghost use Rattle.calls.specs.Answers.{table_exit_of};
ghost use Rattle.table_calls.specs.Checks.{forget_decision};

use layout::address::Address;
use layout::row;
use layout::row::Row;
use refusals::Refusal;
use table::{legal, search};

// Returns the place of the row to free, or the refusal of lowest number.
fn row_to_free(table: &[u8], destination: Address) -> Result<usize, Refusal>
    ensures result_value { forget_decision table.now result ≡ forget table.now destination }
    ensures inside { IfOk result (λ i. place i + row_octets ≤ length table.now) }
{
    if !legal::is_sized(table) {
        return Err(Refusal::TableLength);
    }
    if !destination.is_individual() {
        return Err(Refusal::BadAddress);
    }
    if !legal::is_table(table) {
        return Err(Refusal::NotATable);
    }
    search::find_row(table, destination).ok_or(Refusal::NotHeld)
}

pub fn forget(table: &mut [u8], destination: Address) -> Result<(), Refusal>
    ensures { table_exit_of result table.new ≡ forget_exit table.old destination }
{
    let i = row_to_free(table, destination)?;
    row::write_row(table, i, Row::free());
    Ok(())
}

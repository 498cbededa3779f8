// Checks refusal 27: the call needs more new rows than are free, in whatever places the free rows lie.
ghost use Rattle.std.specs.Prelude.{◌≡◌, cond, ◌≤◌, is_none, ltb};
ghost use Rattle.table.specs.Table.{find_row, free_rows};
ghost use Rattle.rules.specs.Receive.{rows_needed};

use crate::Heard;
use table::search;

// Returns how many new rows a destination needs, from the search for its row: 0 if it has a row, 1 if it has none.
fn new_rows(found: Option<usize>) -> usize
    ensures value { result ≡ cond (is_none found) 1 0 }
    ensures upper_bound { result ≤ 1 }
{
    match found {
        Some(_) => 0,
        None => 1,
    }
}

// `found` is the place of the subject's row. The place is handed on, so that the row is searched for once.
impl Heard {
    // Returns how many new rows the call needs: a row for the subject if none is held for the subject, and a row for the
    // transmitter if the transmitter is not the subject and none is held for the transmitter.
    fn rows_needed(self, table: &[u8], found: Option<usize>) -> usize
        requires { found ≡ find_row table.now self.path.subject }
        ensures { result ≡ rows_needed table.now self.arrival self.path }
    {
        let needed = new_rows(found);
        if self.arrival.transmitter == self.path.subject {
            return needed;
        }
        needed + new_rows(search::find_row(table, self.arrival.transmitter))
    }

    pub fn lacks_rows(self, table: &[u8], found: Option<usize>) -> bool
        requires { found ≡ find_row table.now self.path.subject }
        ensures { result ≡ ltb (free_rows table.now) (rows_needed table.now self.arrival self.path) }
    {
        let needed = self.rows_needed(table, found);
        if needed == 0 {
            return false;
        }
        search::free_rows(table) < needed
    }
}

// Checks refusal 25: the received number is older than the known number of the subject's row, or equal without a smaller metric.
ghost use Rattle.std.specs.Prelude.{◌≡◌};
ghost use Rattle.rules.specs.Receive.{is_stale, is_stale_for};
ghost use Rattle.table.specs.Table.{find_row};

use crate::Heard;
use calls::here;
use layout::row;
use layout::row::Row;

impl Heard {
    // Reports whether the row r, active or not, makes the element stale: its number is known, and the received number is older,
    // or equal with a metric that is not smaller.
    fn is_stale_for(self, r: Row) -> bool
        ensures { result ≡ is_stale_for self.arrival self.path r }
    {
        if r.known != 1 {
            return false;
        }
        if self.path.number.is_older(r.number) {
            return true;
        }
        let metric = here::metric_here(self.arrival, self.path);
        (self.path.number == r.number) & (r.metric.0 <= metric.0)
    }

    // Reports whether the subject's row makes the element stale. `found` is the place of that row. The place is handed on, so
    // that the row is searched for once.
    pub fn is_stale(self, table: &[u8], found: Option<usize>) -> bool
        requires { found ≡ find_row table.now self.path.subject }
        ensures { result ≡ is_stale table.now self.arrival self.path }
    {
        let Some(i) = found else {
            return false;
        };
        self.is_stale_for(row::read_row(table, i))
    }
}

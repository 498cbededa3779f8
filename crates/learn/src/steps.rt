// Does steps 1 and 2 (docs/PROTOCOL.md, 'Learning'): makes or changes the subject's row and the transmitter's row.
ghost use Rattle.std.specs.Prelude.{◌≡◌, ◌||◌, is_none};
ghost use Rattle.table.specs.Table.{find_row, row_for};
ghost use Rattle.rules.specs.Learn.{expiry_of, learnt, new_row, row_or_new, row_takes_link};
ghost use Rattle.rules.specs.Learn.{subject_learnt, subject_row, transmitter_learnt, transmitter_row};

use crate::Heard;
use calls::here;
use counters::HopCount;
use layout::address::Address;
use layout::row;
use layout::row::Row;
use table::{search, store};

// Returns the row that a step starts from if the destination has none. Its number is unknown.
fn new_row(destination: Address) -> Row
    ensures { result ≡ new_row destination }
{
    Row {
        destination,
        ..Row::free()
    }
}

// Returns the row that a step starts from: the row at `found`, otherwise a new row.
fn row_or_new(table: &[u8], found: Option<usize>, destination: Address) -> Row
    requires { found ≡ find_row table.now destination }
    ensures { result ≡ row_or_new destination (row_for table.now destination) }
{
    match found {
        Some(i) => row::read_row(table, i),
        None => new_row(destination),
    }
}

impl Heard {
    // Returns clock + lifetime, or the stored expiry if the row was active before this step and its stored expiry is larger.
    fn expiry_of(self, r: Row) -> u64
        ensures { result ≡ expiry_of self.arrival.clock self.path.lifetime r }
    {
        let expiry = self.arrival.clock + self.path.lifetime as u64;
        if r.is_active(self.arrival.clock) & (expiry < r.expiry) {
            return r.expiry;
        }
        expiry
    }

    // Step 1: makes the row valid, with the transmitter as its next hop and the received number, which is then known.
    fn subject_row(self, r: Row) -> Row
        ensures { result ≡ subject_row self.arrival self.path r }
    {
        let expiry = self.expiry_of(r);
        let metric = here::metric_here(self.arrival, self.path);
        let hops = here::hops_here(self.path);
        let renewed = r.renewed(self.arrival.transmitter, metric, hops, expiry);
        renewed.numbered(self.path.number)
    }

    // `found` is the place of the subject's row. The place is handed on, so that the row is searched for once.
    fn learn_subject(self, table: &mut [u8], found: Option<usize>)
        requires { found ≡ find_row table.old self.path.subject }
        ensures { table.new ≡ subject_learnt self.arrival self.path table.old }
    {
        let r = row_or_new(table, found, self.path.subject);
        store::put_row(table, found, self.subject_row(r));
    }

    // Reports whether step 2 changes the row. A row that is not active is changed if its number is unknown, or the link metric
    // is at most its metric. An active row is changed if the link metric is below its metric.
    fn row_takes_link(self, r: Row) -> bool
        ensures { result ≡ row_takes_link self.arrival r }
    {
        if r.is_active(self.arrival.clock) {
            return self.arrival.link.0 < r.metric.0;
        }
        (r.known == 0) | (self.arrival.link.0 <= r.metric.0)
    }

    // Reports whether step 2 makes or changes the row. An absent row is always made.
    fn takes_link(self, found: Option<usize>, r: Row) -> bool
        ensures { result ≡ (is_none found || row_takes_link self.arrival r) }
    {
        found.is_none() | self.row_takes_link(r)
    }

    // Step 2: makes the row valid, with the transmitter as its next hop, the link metric as its metric and hop count 1. If the
    // row was held, its number and 'number known' stay.
    fn transmitter_row(self, r: Row) -> Row
        ensures { result ≡ transmitter_row self.arrival self.path.lifetime r }
    {
        let expiry = self.expiry_of(r);
        r.renewed(
            self.arrival.transmitter,
            self.arrival.link,
            HopCount(1),
            expiry,
        )
    }

    fn learn_transmitter(self, table: &mut [u8])
        ensures { table.new ≡ transmitter_learnt self.arrival self.path.lifetime table.old }
    {
        let found = search::find_row(table, self.arrival.transmitter);
        let r = row_or_new(table, found, self.arrival.transmitter);
        if !self.takes_link(found, r) {
            return;
        }
        store::put_row(table, found, self.transmitter_row(r));
    }

    // Does step 1, and step 2 if the transmitter is not the subject. `found` is the place of the subject's row. Step 1 comes
    // first, so that the subject's row takes the lower of two free rows.
    pub fn learn(self, table: &mut [u8], found: Option<usize>)
        requires { found ≡ find_row table.old self.path.subject }
        ensures { table.new ≡ learnt self.arrival self.path table.old }
    {
        self.learn_subject(table, found);
        if self.arrival.transmitter != self.path.subject {
            self.learn_transmitter(table);
        }
    }
}

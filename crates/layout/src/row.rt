// The head and the rows of a table, as values and in its octets.
ghost use Rattle.std.specs.Prelude.{◌≡◌, [], ◌∷◌, ◌+◌, ◌≤◌, length};
ghost use Rattle.layout.specs.Row.{active, free_row, fresh_head, head_with, invalidated, is_through, numbered, raised, renewed};
ghost use Rattle.layout.specs.Layout.{head_at, head_numbers, place, put_head, put_row, row_at, row_octets, Sized};
ghost use Rattle.octets.specs.LittleEndian.{with_fields};

use crate::address::Address;
use counters::{HopCount, Metric, RequestId, SequenceNumber};

// The head has 32 octets, each row has 32 octets, and a table has at most 128 rows.
pub const HEAD_OCTETS: usize = 32;

pub const ROW_OCTETS: usize = 32;

pub const MOST_ROWS: usize = 128;

// The largest clock, 2^48 - 1.
pub const MAX_CLOCK: u64 = 281474976710655;

// The metric that a row takes together with a newer number from a RERR, or with a stepped number in a break.
const UNREACHABLE: u32 = 4294967295;

// A head and a row have their fields in the order of the octets. In a table, `zero2`, `zero8` and `zero` are 0 (refusal 21). In
// a row, `known` is 1 if the number is known, `hops` is the hop count, and `next` is the next hop. `status` and `known` hold
// octets as found, and no enum or bool, because refusal 21 judges a row after it is read.
#[derive(Clone, Copy, PartialEq, Eq)]
pub struct Head {
    pub own: Address,
    pub zero2: u16,
    pub number: SequenceNumber,
    pub request: RequestId,
    pub clock: u64,
    pub zero8: u64,
}

#[derive(Clone, Copy, PartialEq, Eq)]
pub struct Row {
    pub status: u8,
    pub known: u8,
    pub hops: HopCount,
    pub zero: u8,
    pub destination: Address,
    pub next: Address,
    pub number: SequenceNumber,
    pub metric: Metric,
    pub expiry: u64,
}

impl Head {
    // Returns the head of a fresh table.
    pub fn fresh(own: Address, number: SequenceNumber) -> Self
        ensures { result ≡ fresh_head own number }
    {
        Head {
            own,
            zero2: 0,
            number,
            request: RequestId(0),
            clock: 0,
            zero8: 0,
        }
    }

    // Returns the head with the given counters and clock. No call except fresh changes the other fields.
    #[tactic(auto, unfolding(crate::specs::Row::head_with))]
    pub fn with(mut self, number: SequenceNumber, request: RequestId, clock: u64) -> Self
        ensures { result ≡ head_with number request clock self }
    {
        self.number = number;
        self.request = request;
        self.clock = clock;
        self
    }
}

impl Row {
    pub fn free() -> Self
        ensures { result ≡ free_row }
    {
        Row {
            status: 0,
            known: 0,
            hops: HopCount(0),
            zero: 0,
            destination: Address(0),
            next: Address(0),
            number: SequenceNumber(0),
            metric: Metric(0),
            expiry: 0,
        }
    }

    #[tactic(auto, unfolding(crate::specs::Row::active))]
    pub fn is_active(self, clock: u64) -> bool
        ensures { result ≡ active clock self }
    {
        (self.status == 1) & (clock < self.expiry)
    }

    // Reports whether the row is active and has `hop` as its next hop.
    #[tactic(auto, unfolding(crate::specs::Row::is_through))]
    pub fn is_through(self, clock: u64, hop: Address) -> bool
        ensures { result ≡ is_through clock hop self }
    {
        self.is_active(clock) & (self.next == hop)
    }

    // Makes the row valid with the given next hop, metric, hop count and expiry. The number and 'number known' stay.
    #[tactic(auto, unfolding(crate::specs::Row::renewed))]
    pub fn renewed(mut self, next: Address, metric: Metric, hops: HopCount, expiry: u64) -> Self
        ensures { result ≡ renewed next metric hops expiry self }
    {
        self.status = 1;
        self.next = next;
        self.metric = metric;
        self.hops = hops;
        self.expiry = expiry;
        self
    }

    // Gives the row a number, which is then known.
    #[tactic(auto, unfolding(crate::specs::Row::numbered))]
    pub fn numbered(mut self, number: SequenceNumber) -> Self
        ensures { result ≡ numbered number self }
    {
        self.known = 1;
        self.number = number;
        self
    }

    // Invalidates the row: sets its status to 2. All its other fields stay.
    #[tactic(auto, unfolding(crate::specs::Row::invalidated))]
    pub fn invalidated(mut self) -> Self
        ensures { result ≡ invalidated self }
    {
        self.status = 2;
        self
    }

    // Gives a row of known number a new number and the largest metric. From then on, refusal 25 lets through only a newer
    // number, or an equal number with a smaller metric.
    #[tactic(auto, unfolding(crate::specs::Row::raised))]
    pub fn raised(mut self, number: SequenceNumber) -> Self
        ensures { result ≡ raised number self }
    {
        self.number = number;
        self.metric.0 = UNREACHABLE;
        self
    }
}

pub fn read_head(table: &[u8]) -> Head
    requires { Sized table.now }
    ensures { result ≡ head_at table.now }
{
    Head {
        own: Address(octets::read_u48(table, 0)),
        zero2: octets::read_u16(table, 6),
        number: SequenceNumber(octets::read_u32(table, 8)),
        request: RequestId(octets::read_u32(table, 12)),
        clock: octets::read_u64(table, 16),
        zero8: octets::read_u64(table, 24),
    }
}

// Returns the numbers of a head, in the order of the octets.
fn head_numbers(h: Head) -> [u64; 6]
    ensures { result ≡ head_numbers h }
{
    [
        h.own.0,
        h.zero2 as u64,
        h.number.0 as u64,
        h.request.0 as u64,
        h.clock,
        h.zero8,
    ]
}

pub fn write_head(table: &mut [u8], h: Head)
    requires { Sized table.old }
    ensures { table.new ≡ put_head table.old h }
{
    let widths = [6u8, 2, 4, 4, 8, 8];
    let numbers = head_numbers(h);
    octets::write_fields(table, 0, &widths, &numbers);
}

// Functions of one row require that it lies in the octets. A place that a search has found does, but a struct for such a place
// would have to hold the table, which is lent for writing between the search and the next use of the place.
pub fn status_at(table: &[u8], i: usize) -> u8
    requires { place i + row_octets ≤ length table.now }
    ensures { result ≡ (row_at table.now i).status }
{
    octets::read_u8(table, HEAD_OCTETS + ROW_OCTETS * i)
}

pub fn destination_at(table: &[u8], i: usize) -> Address
    requires { place i + row_octets ≤ length table.now }
    ensures { result ≡ (row_at table.now i).destination }
{
    Address(octets::read_u48(table, HEAD_OCTETS + ROW_OCTETS * i + 4))
}

pub fn read_row(table: &[u8], i: usize) -> Row
    requires { place i + row_octets ≤ length table.now }
    ensures { result ≡ row_at table.now i }
{
    let at = HEAD_OCTETS + ROW_OCTETS * i;
    Row {
        status: octets::read_u8(table, at),
        known: octets::read_u8(table, at + 1),
        hops: HopCount(octets::read_u8(table, at + 2)),
        zero: octets::read_u8(table, at + 3),
        destination: Address(octets::read_u48(table, at + 4)),
        next: Address(octets::read_u48(table, at + 10)),
        number: SequenceNumber(octets::read_u32(table, at + 16)),
        metric: Metric(octets::read_u32(table, at + 20)),
        expiry: octets::read_u64(table, at + 24),
    }
}

// Writes the first four octets of a row: status, number known, hop count, zero.
fn write_status(table: &mut [u8], at: usize, row: Row)
    requires { at + 4 ≤ length table.old }
    ensures { table.new
        ≡ with_fields (1 ∷ 1 ∷ 1 ∷ 1 ∷ []) table.old at 0
        (row.status ∷ row.known ∷ row.hops.0 ∷ row.zero ∷ []) }
{
    octets::write_u8(table, at, row.status);
    octets::write_u8(table, at + 1, row.known);
    octets::write_u8(table, at + 2, row.hops.0);
    octets::write_u8(table, at + 3, row.zero);
}

// Writes a row field by field, not by a list of widths, because the compiler then stores each field whole.
pub fn write_row(table: &mut [u8], i: usize, row: Row)
    requires { place i + row_octets ≤ length table.old }
    ensures { table.new ≡ put_row table.old i row }
{
    let at = HEAD_OCTETS + ROW_OCTETS * i;
    write_status(table, at, row);
    octets::write_u48(table, at + 4, row.destination.0);
    octets::write_u48(table, at + 10, row.next.0);
    octets::write_u32(table, at + 16, row.number.0);
    octets::write_u32(table, at + 20, row.metric.0);
    octets::write_u64(table, at + 24, row.expiry);
}

// The points: their tables side by side, and the commands that add a point, advance the clock and walk between two points.
ghost use Rattle.std.specs.Prelude.{IfOk, ◌≡◌, ◌<◌, ◌≤◌, length};
ghost use Rattle.octets.specs.LittleEndian.{Octets};
ghost use Rattle.layout.specs.Address.{address_of};
ghost use Rattle.rules.specs.Walk.{table_at};
ghost use Rattle.bench_rules.specs.Commands.{add_point, advance, walk_to};
ghost use Rattle.bench_rules.specs.Interpreter.{leaving_links};
ghost use Rattle.bench_points.specs.InCode.{Adds, FaultKeeps, Walks, bench_of, came_in, done_in, points_after};

use crate::{Bench, Fault, Printed};
use counters::SequenceNumber;
use layout::address::Address;
use layout::row;
use table_calls::fresh;
use walk::{Walked, pieces};

pub const MOST_POINTS: usize = 16;

// Octets of a table with 16 rows.
pub const TABLE: usize = 544;

// Octets of the tables of all points.
pub const TABLES: usize = MOST_POINTS * TABLE;

// Returns the address of point p.
pub fn address_of(tables: &[u8; TABLES], p: usize) -> Address
    requires { p < 16 }
    ensures { result ≡ address_of (table_at tables.now 544 p) }
{
    pieces::point_at(tables, TABLE, p)
}

// Adds a point with a fresh table behind the first `points` tables. The caller counts the point by `points_after`, because a
// refused point is not added. A 17th point is a fault.
pub fn add_table(
    points: usize,
    own: Address,
    number: SequenceNumber,
    tables: &mut [u8],
) -> Result<Printed, Fault>
    requires { length tables.old ≡ 8704 }
    ensures adds { Adds result points own number tables.old tables.new }
    ensures points_bound { IfOk result (λ _. points < 16) }
    ensures octets { Octets tables.new }
{
    if MOST_POINTS <= points {
        return Err(Fault);
    }
    let at = TABLE * points;
    let part = &mut tables[at..at + TABLE];
    let answer = refusals::number_of(fresh::make_fresh(part, own, number));
    Ok(Printed { answer, third: 0 })
}

// Returns how many points there are after `add_table`: a point more if its answer is 0.
pub fn points_after(added: Result<Printed, Fault>, points: usize) -> usize
    requires { IfOk added (λ _. points < 16) }
    ensures value { result ≡ points_after added points }
    ensures lower_bound { points ≤ result }
    ensures upper_bound { points ≤ 16 → result ≤ 16 }
{
    match added {
        Ok(Printed { answer: 0, .. }) => points + 1,
        _ => points,
    }
}

// Adds a point with a fresh table. A refused point is not added, and a 17th point is a fault.
pub fn add_point(bench: &mut Bench, own: Address, number: SequenceNumber) -> Result<Printed, Fault>
    ensures bench_after { came_in result bench.new
        ≡ leaving_links bench.old.links (add_point (bench_of bench.old) own number) }
    ensures fault_keeps { FaultKeeps result bench.old bench.new }
    ensures slots_keep { bench.new.slots ≡ bench.old.slots }
{
    let added = add_table(bench.points, own, number, &mut bench.tables);
    bench.points = points_after(added, bench.points);
    added
}

// Advances the clock. A clock above 2^48 - 1 is a fault.
#[tactic(auto, unfolding(bench_rules::specs::Commands::advance))]
pub fn advance_clock(bench: &mut Bench, by: u32) -> Result<Printed, Fault>
    ensures bench_after { came_in result bench.new
        ≡ leaving_links bench.old.links (advance (bench_of bench.old) by) }
    ensures fault_keeps { FaultKeeps result bench.old bench.new }
    ensures memory_keeps { (bench.new.tables ≡ bench.old.tables) × (bench.new.slots ≡ bench.old.slots) }
{
    let clock = bench.clock + by as u64;
    if row::MAX_CLOCK < clock {
        return Err(Fault);
    }
    bench.clock = clock;
    Ok(Printed {
        answer: 0,
        third: 0,
    })
}

// Walks from point p to point q over the first `points` tables. It is a fault if p or q is no point.
pub fn walk_between(
    points: usize,
    clock: u64,
    p: u8,
    q: u8,
    tables: &[u8],
) -> Result<Printed, Fault>
    requires tables_len { length tables.now ≡ 8704 }
    requires points_bound { points ≤ 16 }
    ensures { Walks result points clock p q tables.now }
{
    if points <= p as usize {
        return Err(Fault);
    }
    if points <= q as usize {
        return Err(Fault);
    }
    let start = pieces::point_at(tables, TABLE, p as usize);
    let destination = pieces::point_at(tables, TABLE, q as usize);
    let octets = TABLE * points;
    let ending = walk::walk(&tables[..octets], points as u32, clock, start, destination);
    let walked = Walked::from(ending);
    Ok(Printed {
        answer: walked.answer,
        third: walked.hops,
    })
}

// Walks from point p to point q over the tables of all points. It is a fault if p or q is no point.
pub fn walk_to(bench: &Bench, p: u8, q: u8) -> Result<Printed, Fault>
    ensures { done_in result bench.now ≡ walk_to (bench_of bench.now) p q }
{
    walk_between(bench.points, bench.clock, p, q, &bench.tables)
}

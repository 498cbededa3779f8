// Walks over tables side by side: finds out whether active rows lead from a start to a destination, and in how many hops.
#![tactic(auto)]

pub mod pieces;
mod way;

ghost use Rattle.std.specs.Prelude.{◌≡◌, true};
ghost use Rattle.rules.specs.Walk.{side_by_side, table_checks, tables_in, walk, walked_at_exit, walking};
ghost use Rattle.calls.specs.Answers.{answer_to};
ghost use Rattle.walk.specs.Answers.{walk_decision, numbers_of};

use counters::HopCount;
use layout::address::Address;
use layout::row;
use pieces::Pieces;
use refusals::Refusal;

// The answers of a walk that does not arrive. `NO_ROUTE`: no active row leads on to a point or to the destination. `TOO_LONG`:
// the walk took as many hops as there are points.
const NO_ROUTE: u32 = 41;

const TOO_LONG: u32 = 42;

// How a walk that is not refused ends, with the hops walked.
#[derive(Clone, Copy)]
pub enum Ending {
    Arrived(HopCount),
    Stopped(HopCount),
    TooLong(HopCount),
}

// Holds the answer and the hops as numbers. C receives them, and the bench prints them.
#[repr(C)]
#[derive(Clone, Copy)]
pub struct Walked {
    pub answer: u32,
    pub hops: u32,
}

// The answer is 0, 41 or 42 with the hops walked, or the refusal's number with 0 hops.
impl From<Result<Ending, Refusal>> for Walked {
    ghost from_gives = { λ ending w. numbers_of w ≡ walked_at_exit (walk_decision ending) };

    fn from(ending: Result<Ending, Refusal>) -> Walked {
        match ending {
            Ok(Ending::Arrived(hops)) => Walked {
                answer: 0,
                hops: u32::from(hops.0),
            },
            Ok(Ending::Stopped(hops)) => Walked {
                answer: NO_ROUTE,
                hops: u32::from(hops.0),
            },
            Ok(Ending::TooLong(hops)) => Walked {
                answer: TOO_LONG,
                hops: u32::from(hops.0),
            },
            Err(refusal) => Walked {
                answer: u32::from(refusal),
                hops: 0,
            },
        }
    }
}

// Checks the state: refusals 21 and 22.
fn check_state(pieces: &Pieces, clock: u64) -> Result<(), Refusal>
    ensures { result ≡ answer_to (table_checks (tables_in pieces.now.octets.now pieces.now.count) clock) }
{
    if pieces.has_non_table() {
        return Err(Refusal::NotATable);
    }
    if pieces.has_later_clock(clock) {
        return Err(Refusal::OldClock);
    }
    Ok(())
}

// Checks all refusals of a walk in their order. The pieces pass refusal 1.
fn check(pieces: &Pieces, clock: u64, start: Address, destination: Address) -> Result<(), Refusal>
    requires { side_by_side pieces.now.octets.now pieces.now.count ≡ true }
    ensures { result ≡ answer_to (walking pieces.now.octets.now pieces.now.count clock start destination).checks }
{
    if row::MAX_CLOCK < clock {
        return Err(Refusal::ClockTooLarge);
    }
    if !destination.is_individual() {
        return Err(Refusal::BadAddress);
    }
    if !pieces.is_point(start) | pieces.has_duplicate() {
        return Err(Refusal::BadList);
    }
    check_state(pieces, clock)
}

pub fn walk(
    tables: &[u8],
    count: u32,
    clock: u64,
    start: Address,
    destination: Address,
) -> Result<Ending, Refusal>
    ensures { walk_decision result ≡ walk tables.now count clock start destination }
{
    let pieces = Pieces::split(tables, count as usize)?;
    check(&pieces, clock, start, destination)?;
    Ok(way::follow(&pieces, clock, start, destination))
}

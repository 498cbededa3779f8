// Fills a table of four rows, and frees two rows that are apart. One announcement that needs two rows takes both, and a
// further announcement is refused with 27. The bench cannot show a full table: a point there has 16 rows but at most 15 other
// points, and the bench has no command to forget.
#![tactic(auto)]

ghost use Rattle.std.specs.Prelude.{◌<◌};

use calls::LEAST_OUTPUT;
use counters::{Metric, SequenceNumber};
use layout::address::Address;
use layout::row;
use rules::Arrival;
use std::io::{self, Print};
use table_calls::{forget, fresh};

// Octets of a table with 4 rows.
const TABLE: usize = 160;

// Returns the address 2,0,0,0,0,i.
fn point(i: u8) -> Address {
    Address::from(&[2, 0, 0, 0, 0, i])
}

// Returns the RANN of point i: TTL 31, number 1, lifetime 1000, metric 0.
fn announcement(i: u8) -> [u8; 23] {
    [
        126, 21, 0, 0, 31, 2, 0, 0, 0, 0, i, 1, 0, 0, 0, 232, 3, 0, 0, 0, 0, 0, 0,
    ]
}

fn print_answer(rt: &impl Print, call: &str, answer: u32) -> io::Result<()> {
    println!(rt; "{call} {answer}")
}

// Receives the announcement of the originator from the transmitter, and prints the answer.
fn hear(
    rt: &impl Print,
    table: &mut [u8; TABLE],
    originator: u8,
    transmitter: u8,
) -> io::Result<()> {
    let mut output = [0u8; LEAST_OUTPUT];
    let arrival = Arrival {
        clock: 0,
        transmitter: point(transmitter),
        link: Metric(10),
    };
    match receive::receive(table, &mut output, arrival, &announcement(originator)) {
        Ok(_) => print_answer(rt, "receive", 0),
        Err(refusal) => print_answer(rt, "receive", u32::from(refusal)),
    }
}

fn forget_point(rt: &impl Print, table: &mut [u8; TABLE], i: u8) -> io::Result<()> {
    print_answer(
        rt,
        "forget",
        refusals::number_of(forget::forget(table, point(i))),
    )
}

// Prints the last octet of the destination in row i: 0 if the row is free.
fn print_row(rt: &impl Print, table: &[u8; TABLE], i: usize) -> io::Result<()>
    requires { i < 4 }
{
    let last = row::destination_at(table, i).octets()[5];
    print!(rt; " {last}")
}

fn print_rows(rt: &impl Print, table: &[u8; TABLE]) -> io::Result<()> {
    print!(rt; "rows")?;
    for i in 0..4 {
        print_row(rt, table, i)?;
    }
    println!(rt; "")
}

fn fill(rt: &impl Print, table: &mut [u8; TABLE]) -> io::Result<()> {
    let answer = refusals::number_of(fresh::make_fresh(table, point(1), SequenceNumber(0)));
    print_answer(rt, "fresh", answer)?;
    hear(rt, table, 2, 2)?;
    hear(rt, table, 3, 3)?;
    hear(rt, table, 4, 4)?;
    hear(rt, table, 5, 5)?;
    print_rows(rt, table)
}

// Frees rows 1 and 3.
fn free_two(rt: &impl Print, table: &mut [u8; TABLE]) -> io::Result<()> {
    forget_point(rt, table, 3)?;
    forget_point(rt, table, 5)?;
    print_rows(rt, table)
}

// Receives an announcement whose originator takes row 1 and whose transmitter takes row 3. Then no row is free, and the next
// announcement is refused.
fn take_two(rt: &impl Print, table: &mut [u8; TABLE]) -> io::Result<()> {
    hear(rt, table, 6, 7)?;
    print_rows(rt, table)?;
    hear(rt, table, 8, 8)?;
    print_rows(rt, table)
}

fn main(rt: HostRuntime) -> io::Result<()> {
    let mut table = [0u8; TABLE];
    fill(&rt, &mut table)?;
    free_two(&rt, &mut table)?;
    take_two(&rt, &mut table)
}

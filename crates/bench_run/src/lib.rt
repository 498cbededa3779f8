// Runs the bench on an input and an output.
#![tactic(auto)]

mod block;
mod turn;

use bench_points::Bench;
use bench_text::Text;
use std::io::{Print, Read};

// Bounds the turns, because the loop must end and the input might not. No real run has this many turns. The offset grows by at
// most 65,536 in a turn, and therefore never exceeds 2^63.
const MOST_TURNS: u64 = 140_737_488_355_328;

// Obeys the commands of the input and prints a line for each.
pub fn run<R: Print, I: Read>(rt: &R, input: &mut I) {
    let mut bench = Bench::new();
    let mut text = Text::new();
    let mut buffer = io::large_buffer();
    let mut cursor = bench_input::start();
    for _ in 0..MOST_TURNS {
        match turn::take_turn(rt, input, cursor, &mut buffer, &mut bench, &mut text) {
            Some(after) => cursor = after,
            None => return,
        }
    }
}

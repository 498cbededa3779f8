// A turn of the bench: it reads more of the input if the next command is not all there, and obeys whole commands.
ghost use Rattle.std.specs.Prelude.{IfSome, ◌+◌, ◌<◌, ◌≤◌, length};
ghost use Rattle.bench_input.specs.Reading.{left};
ghost use Rattle.bench_run.specs.Blocks.{standing};
ghost use Rattle.bench_run.specs.Turns.{GoesOn, ReadAndTurned, Ready, Turned};

use crate::block;
use bench_input::Cursor;
use bench_points::Bench;
use bench_text::Text;
use std::io::{Print, Read};

// Obeys what has been read, and prints its lines at once. Returns the cursor for the next turn, or nothing if the bench has
// ended: at a fault, or with the last octet of the input.
fn obey_unread<R: Print>(
    rt: &R,
    c: Cursor,
    buffer: &[u8],
    bench: &mut Bench,
    text: &mut Text,
) -> Option<Cursor>
    requires ready { Ready c buffer.now bench.old }
    requires buffer_bound { c.offset + length buffer.now < 18446744073709551616 }
    ensures goes_on { GoesOn result buffer.now bench.new }
    ensures offset_bound { IfSome result (λ after. after.offset ≤ c.offset + length buffer.now) }
    ensures turned { Turned result (standing bench.old c.offset) c buffer.now bench.new }
{
    let used = block::obey_block(&buffer[c.from..c.filled], c.last, c.offset, bench, text);
    block::print(rt, text);
    let used = used?;
    if c.last & (used == c.filled - c.from) {
        return None;
    }
    Some(bench_input::go_past(c, used))
}

// Reads more octets if the next command is cut, and obeys what has been read. Returns the cursor for the next turn, or nothing if
// the bench has ended.
pub fn take_turn<R: Print, I: Read>(
    rt: &R,
    input: &mut I,
    c: Cursor,
    buffer: &mut [u8],
    bench: &mut Bench,
    text: &mut Text,
) -> Option<Cursor>
    requires ready { Ready c buffer.old bench.old }
    requires buffer_bound { c.offset + length buffer.old < 18446744073709551616 }
    ensures goes_on { GoesOn result buffer.new bench.new }
    ensures offset_bound { IfSome result (λ after. after.offset ≤ c.offset + length buffer.old) }
    ensures read_and_turned { ReadAndTurned result (standing bench.old c.offset)
        (left c buffer.old) buffer.new bench.new }
{
    let unread = bench_input::refill(input, buffer, c);
    obey_unread(rt, unread, buffer, bench, text)
}

// Obeys the commands of a block, one after another, and adds the lines that they print to a text.
ghost use Rattle.std.specs.Prelude.{IfSome, ◌≡◌, [], ◌+◌, ◌<◌, ◌≤◌, drop, length};
ghost use Rattle.bench_rules.specs.Run.{going, obey_first, obey_until};
ghost use Rattle.bench_run.specs.Blocks.{Uses, course_of, pauses_in, standing};

use bench_core::interpreter;
use bench_points::{Bench, Fault};
use bench_text::{LONGEST_LINE, Text};
use std::io::Print;

// Obeys the command at place `used` of the block, and adds its line to the text. The block begins at this offset of the input.
// Returns how many octets of the block are then used, or nothing if a fault has ended the bench.
fn step(block: &[u8], offset: u64, used: usize, bench: &mut Bench, text: &mut Text) -> Option<usize>
    requires in_bounds { (used < length block.now) × (length text.old + 64 ≤ 65536) }
    requires block_bound { offset + length block.now < 18446744073709551616 }
    ensures text_after { course_of result offset bench.new text.new
        ≡ obey_first text.old (standing bench.old (offset + used)) (drop used block.now) }
    ensures used_bound { IfSome result (λ after. after ≤ length block.now) }
    ensures uses { Uses used result block.now }
{
    match interpreter::obey_first(&block[used..], bench) {
        Ok(line) => {
            text.put_line(
                u8::from(line.command),
                line.printed.answer,
                line.printed.third,
            );
            Some(used + line.command.length())
        }
        Err(Fault) => {
            text.put_fault(offset + used as u64);
            None
        }
    }
}

// Obeys all whole commands of a block, as long as the text, which begins anew, has room. In the last block it also obeys the
// command that is cut. Returns how many octets of the block are used, or nothing if a fault has ended the bench.
pub fn obey_block(
    block: &[u8],
    last: bool,
    offset: u64,
    bench: &mut Bench,
    text: &mut Text,
) -> Option<usize>
    requires { offset + length block.now < 18446744073709551616 }
    ensures text_after { course_of result offset bench.new text.new
        ≡ obey_until (pauses_in last) (length block.now)
        (going [] (standing bench.old offset)) block.now }
    ensures used_bound { IfSome result (λ after. after ≤ length block.now) }
{
    text.clear();
    let mut used = 0;
    // No `for` counts here, because each command says how far it came.
    while used < block.len() {
        if !last & bench_commands::is_cut(&block[used..]) {
            return Some(used);
        }
        if text.room() < LONGEST_LINE {
            return Some(used);
        }
        used = step(block, offset, used, bench, text)?;
    }
    Some(used)
}

// Prints a text. What becomes of a write that fails is not the bench's concern: it obeys on.
pub fn print<R: Print>(rt: &R, text: &Text) {
    let _ = rt.write_all(text.octets());
}

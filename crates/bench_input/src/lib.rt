// Commands come in blocks of the bench's input. A block may end inside a command.
#![tactic(auto)]

ghost use Rattle.std.specs.Prelude.{◌≡◌, ◌&&◌, ◌||◌, false, eqb, ◌+◌, ◌-◌, ◌<◌, ◌≤◌, drop, length, take};
ghost use Rattle.bench_rules.specs.Interpreter.{is_cut};
ghost use Rattle.bench_input.specs.Reading.{Extends, Keeps, Unread, left, past};

use std::io::Read;

// The unread octets are the octets of the buffer that are not obeyed yet: those from place `from` on and before place `filled`.
// `last` says whether standard input has ended; no value stands beside it that an Option could hold. `offset` is the offset of
// the first unread octet in the input. The cursor has places and no slice, because the memory is fixed: the buffer is written
// again while the cursor stays.
#[derive(Clone, Copy)]
pub struct Cursor {
    pub from: usize,
    pub filled: usize,
    pub last: bool,
    pub offset: u64,
}

// Returns the cursor at the start of the input.
pub fn start() -> Cursor
    ensures { result ≡ record { from = 0; filled = 0; last = false; offset = 0 } }
{
    Cursor {
        from: 0,
        filled: 0,
        last: false,
        offset: 0,
    }
}

// Moves the unread octets to the start of the buffer, and returns how many they are.
fn move_to_start(buffer: &mut [u8], from: usize, filled: usize) -> usize
    requires { (from ≤ filled) × (filled ≤ length buffer.old) }
    ensures value { result ≡ filled - from }
    ensures buffer_after { take result buffer.new ≡ take result (drop from buffer.old) }
{
    buffer.copy_within(from..filled, 0);
    filled - from
}

// Reads once into the buffer from place `at` on, and returns how many octets came: 0 at the end of the input or if the read
// fails.
fn read_from<R: Read>(input: &mut R, buffer: &mut [u8], at: usize) -> usize
    requires { at ≤ length buffer.old }
    ensures result_in_bounds { at + result ≤ length buffer.new }
    ensures keeps { Keeps at buffer.old buffer.new }
{
    input.read(&mut buffer[at..]).unwrap_or(0)
}

// Moves the unread octets to the start of the buffer, and reads more octets after them. The input has ended if none come.
fn read_more<R: Read>(input: &mut R, buffer: &mut [u8], c: Cursor) -> Cursor
    requires { Unread c buffer.old }
    ensures unread { Unread result buffer.new }
    ensures offset_value { result.offset ≡ c.offset }
    ensures extends { Extends (left c buffer.old) (left result buffer.new) }
    ensures last_value { result.last ≡ eqb (result.filled - result.from) (c.filled - c.from) }
{
    let left = move_to_start(buffer, c.from, c.filled);
    let filled = left + read_from(input, buffer, left);
    Cursor {
        from: 0,
        filled,
        last: filled == left,
        offset: c.offset,
    }
}

// Reads more octets only if the next command is cut. The bench therefore obeys a whole command before it waits for more input.
// The input has ended if no octets come.
pub fn refill<R: Read>(input: &mut R, buffer: &mut [u8], c: Cursor) -> Cursor
    requires { Unread c buffer.old }
    ensures unread { Unread result buffer.new }
    ensures offset_value { result.offset ≡ c.offset }
    ensures extends { Extends (left c buffer.old) (left result buffer.new) }
    ensures last_value { result.last
        ≡ (c.last || (is_cut (left c buffer.old) && eqb (result.filled - result.from) (c.filled - c.from))) }
{
    if c.last {
        return c;
    }
    if !bench_commands::is_cut(&buffer[c.from..c.filled]) {
        return c;
    }
    read_more(input, buffer, c)
}

// Returns the cursor after the bench has obeyed `used` more octets.
pub fn go_past(c: Cursor, used: usize) -> Cursor
    requires used_bound { c.from + used < 18446744073709551616 }
    requires used_bound_2 { c.offset + used < 18446744073709551616 }
    ensures { result ≡ past c used }
{
    Cursor {
        from: c.from + used,
        offset: c.offset + used as u64,
        ..c
    }
}

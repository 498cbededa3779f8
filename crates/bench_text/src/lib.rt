// The text that the bench prints.
#![tactic(auto)]

ghost use Rattle.std.specs.Prelude.{◌≡◌, ℕ, ◌+◌, ◌<◌, ◌≤◌, List, [], ◌∷◌, ◌++◌, length, take};
ghost use Rattle.octets.specs.LittleEndian.{overwrite};
ghost use Rattle.bench_rules.specs.Text.{decimal, fault_text, line_text};

use std::marker::Model;

// The most octets of a text.
pub const MOST: usize = 65536;

// No line is longer. A line has a command and two numbers of 32 bits, or E and an offset of 64 bits, with spaces and a newline.
pub const LONGEST_LINE: usize = 64;

// Writes one octet at place `at` of the text. This and each function below returns the place after what it has written.
fn put(text: &mut [u8], at: usize, octet: u8) -> usize
    requires { at < length text.old }
    ensures value { result ≡ at + 1 }
    ensures text_after { text.new ≡ overwrite text.old at (octet ∷ []) }
{
    text[at] = octet;
    at + 1
}

// Writes a number in decimal.
fn put_decimal(text: &mut [u8], at: usize, n: u64) -> usize
    requires { at + 20 ≤ length text.old }
    ensures value { (result ≡ at + length (decimal n)) × (result ≤ at + 20) }
    ensures text_after { text.new ≡ overwrite text.old at (decimal n) }
{
    let mut digits = [0u8; 20];
    let k = io::decimal(n, &mut digits);
    octets::write_octets(text, at, &digits[..k]);
    at + k
}

// Writes a number in decimal, and the octet after it.
fn put_number(text: &mut [u8], at: usize, n: u64, octet: u8) -> usize
    requires { at + 21 ≤ length text.old }
    ensures value { (result ≡ at + length (decimal n ++ (octet ∷ []))) × (result ≤ at + 21) }
    ensures text_after { text.new ≡ overwrite text.old at (decimal n ++ (octet ∷ [])) }
{
    let end = put_decimal(text, at, n);
    put(text, end, octet)
}

// Writes the line of a command: the command, its answer or refusal, and the third number.
pub fn put_line(text: &mut [u8], at: usize, command: u8, answer: u32, third: u32) -> usize
    requires { at + 64 ≤ length text.old }
    ensures value { (result ≡ at + length (line_text command answer third)) × (result ≤ at + 64) }
    ensures text_after { text.new ≡ overwrite text.old at (line_text command answer third) }
{
    let a = put_number(text, at, command as u64, b' ');
    let b = put_number(text, a, answer as u64, b' ');
    put_number(text, b, third as u64, b'\n')
}

// Writes the line of a fault: E and the offset of the command at fault.
pub fn put_fault(text: &mut [u8], at: usize, offset: u64) -> usize
    requires { at + 64 ≤ length text.old }
    ensures value { (result ≡ at + length (fault_text offset)) × (result ≤ at + 64) }
    ensures text_after { text.new ≡ overwrite text.old at (fault_text offset) }
{
    let a = put(text, at, b'E');
    let b = put(text, a, b' ');
    put_number(text, b, offset, b'\n')
}

// A text that is still to be printed. Contracts name its octets.
#[derive(Drop)]
pub struct Text {
    octets: [u8; MOST],
    length: usize,
}

impl Model for Text {
    ghost Value = { List ℕ };

    ghost view = { λ t. take t.length t.octets };

    ghost invariant = { λ t. t.length ≤ 65536 };
}

impl Text {
    // Returns a text without any octets.
    pub fn new() -> Text
        ensures { result ≡ [] }
    {
        Text {
            octets: [0u8; MOST],
            length: 0,
        }
    }

    // Returns how many octets the text can still take.
    pub fn room(&self) -> usize
        ensures { result + length self.now ≡ 65536 }
    {
        MOST - self.length
    }

    // Returns the octets of the text.
    pub fn octets(&self) -> &[u8]
        ensures { result.now ≡ self.now }
    {
        &self.octets[..self.length]
    }

    // Takes all octets from the text.
    pub fn clear(&mut self)
        ensures { self.new ≡ [] }
    {
        self.length = 0;
    }

    // Adds the line of a command: the command, its answer or refusal, and the third number. The room for a line is a clause of
    // the functions that add a line: a type for a text with room would be made anew before each line.
    pub fn put_line(&mut self, command: u8, answer: u32, third: u32)
        requires { length self.old + 64 ≤ 65536 }
        ensures text_after { self.new ≡ self.old ++ line_text command answer third }
        ensures length_bound { length self.new ≤ length self.old + 64 }
    {
        self.length = put_line(&mut self.octets, self.length, command, answer, third);
    }

    // Adds the line of a fault: E and the offset of the command at fault.
    pub fn put_fault(&mut self, offset: u64)
        requires { length self.old + 64 ≤ 65536 }
        ensures text_after { self.new ≡ self.old ++ fault_text offset }
        ensures length_bound { length self.new ≤ length self.old + 64 }
    {
        self.length = put_fault(&mut self.octets, self.length, offset);
    }
}

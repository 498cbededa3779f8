// Reads and writes little-endian numbers in lent octets. The reads have the widths that layouts need. The writes also take any
// width, for one number or for several side by side. Other functions read, copy and clear plain octets.
#![tactic(auto)]

ghost use Rattle.std.specs.Prelude.{◌≡◌, ◌+◌, ◌<◌, ◌≤◌, drop, get_or, length, take};
ghost use Rattle.octets.specs.LittleEndian.{Octets, number_at, overwrite, total, with_fields, with_number, zeros};

// Returns the N octets from a place on. The compiler makes one load of 2, 4 or 8 octets. That the octets have the place stands in
// a clause of each function here, since the clauses differ in how many octets follow it.
fn octets_at<const N: usize>(s: &[u8], at: usize) -> [u8; N]
    requires { at + N ≤ length s.now }
    ensures { result ≡ take N (drop at s.now) }
{
    std::array::from_fn(|j| s[at + j])
}

pub fn read_u8(s: &[u8], at: usize) -> u8
    requires { at + 1 ≤ length s.now }
    ensures { result ≡ number_at 1 s.now at }
{
    s[at]
}

pub fn read_u16(s: &[u8], at: usize) -> u16
    requires { at + 2 ≤ length s.now }
    ensures { result ≡ number_at 2 s.now at }
{
    u16::from_le_bytes(octets_at(s, at))
}

pub fn read_u32(s: &[u8], at: usize) -> u32
    requires { at + 4 ≤ length s.now }
    ensures { result ≡ number_at 4 s.now at }
{
    u32::from_le_bytes(octets_at(s, at))
}

// `read_u48` and `write_u48` stay in two parts, 32 and 16 bits. Reading an address as an array was measured: a break took 12
// instructions more for each lost row.
pub fn read_u48(s: &[u8], at: usize) -> u64
    requires { at + 6 ≤ length s.now }
    ensures { result ≡ number_at 6 s.now at }
{
    read_u32(s, at) as u64 + 4294967296 * read_u16(s, at + 4) as u64
}

pub fn read_u64(s: &[u8], at: usize) -> u64
    requires { at + 8 ≤ length s.now }
    ensures { result ≡ number_at 8 s.now at }
{
    u64::from_le_bytes(octets_at(s, at))
}

pub fn write_u8(s: &mut [u8], at: usize, x: u8)
    requires { at + 1 ≤ length s.old }
    ensures { s.new ≡ with_number 1 s.old at x }
{
    s[at] = x;
}

pub fn write_u16(s: &mut [u8], at: usize, x: u16)
    requires { at + 2 ≤ length s.old }
    ensures { s.new ≡ with_number 2 s.old at x }
{
    write_octets(s, at, &x.to_le_bytes());
}

pub fn write_u32(s: &mut [u8], at: usize, x: u32)
    requires { at + 4 ≤ length s.old }
    ensures { s.new ≡ with_number 4 s.old at x }
{
    write_octets(s, at, &x.to_le_bytes());
}

// Writes the lowest six octets of x.
pub fn write_u48(s: &mut [u8], at: usize, x: u64)
    requires { at + 6 ≤ length s.old }
    ensures { s.new ≡ with_number 6 s.old at x }
{
    write_u32(s, at, (x % 4294967296) as u32);
    write_u16(s, at + 4, (x / 4294967296 % 65536) as u16);
}

pub fn write_u64(s: &mut [u8], at: usize, x: u64)
    requires { at + 8 ≤ length s.old }
    ensures { s.new ≡ with_number 8 s.old at x }
{
    write_octets(s, at, &x.to_le_bytes());
}

// Writes the lowest n octets of x, least significant octet first.
pub fn write_number(s: &mut [u8], at: usize, n: usize, x: u64)
    requires { at + n ≤ length s.old }
    ensures { s.new ≡ with_number n s.old at x }
{
    let mut rest = x;
    for j in 0..n {
        s[at + j] = (rest % 256) as u8;
        rest = rest / 256;
    }
}

// Writes the numbers in `values` side by side from place `at` on, each in as many octets as `widths` says. The widths of a
// layout are a list of the definitions, and the values are those of one element, so that the two stay apart.
pub fn write_fields(s: &mut [u8], at: usize, widths: &[u8], values: &[u64])
    requires widths_in_bounds { at + total widths.now ≤ length s.old }
    requires widths_len { length widths.now ≡ length values.now }
    ensures { s.new ≡ with_fields widths.now s.old at 0 values.now }
{
    let mut o = 0;
    for i in 0..widths.len() {
        let w = widths[i] as usize;
        write_number(s, at + o, w, values[i]);
        o += w;
    }
}

// Returns the octet at a place. The cast lets the proof conclude that every octet of s is below 256.
pub fn octet(s: &[u8], at: usize) -> u8
    requires { at < length s.now }
    ensures value { result ≡ get_or s.now at 0 }
    ensures octets { Octets s.now }
{
    let wide = s[at] as u16;
    wide as u8
}

// Writes the octets p from place `at` on. The contract repeats what the type of p says, that each octet is below 256. Callers
// whose definition has p as the octets of fields need it. copy_from_slice was tried: it calls `memcpy`, and the library may ask a
// firmware for `memset` alone (docs/FIRMWARE.md).
pub fn write_octets(s: &mut [u8], at: usize, p: &[u8])
    requires { at + length p.now ≤ length s.old }
    ensures octets { Octets p.now }
    ensures s_after { s.new ≡ overwrite s.old at p.now }
{
    for j in 0..p.len() {
        s[at + j] = p[j];
    }
}

// Sets every octet to zero. The loop compiles to one memset. The library's `fill` takes six instructions more, and with them a
// fresh table of one row would take more than plain Rust.
pub fn clear(s: &mut [u8])
    ensures { s.new ≡ zeros (length s.old) }
{
    for at in 0..s.len() {
        s[at] = 0;
    }
}

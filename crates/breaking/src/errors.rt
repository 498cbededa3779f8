// Writes the RERRs of a break, one destination after another, 25 to a RERR. The number of destinations is not known before the
// last is written. Each RERR is therefore begun with a count of 25, and the last RERR gets its own count in the end.
ghost use Rattle.std.specs.Prelude.{◌≡◌, [], ◌∷◌, ◌+◌, ◌≤◌, length};
ghost use Rattle.octets.specs.LittleEndian.{overwrite};
ghost use Rattle.layout.specs.Layout.{most_rows};
ghost use Rattle.rules.specs.Errors.{errors_taken};
ghost use Rattle.breaking.specs.Reports.{begun_after, begun_before, closed, error_start, filled_by, octets_for};

use calls::Emitted;
use element::{LostDestination, RerrFields, list};
use layout::address::Address;

// The largest number of destinations that a RERR names.
const MOST_LOST: usize = 25;

// Holds the number of destinations reported, the place after them, and the number that fills the RERRs begun so far.
#[derive(Clone, Copy)]
pub struct Reported {
    pub lost: usize,
    place: usize,
    full: usize,
    ghost placed: { place ≡ octets_for lost },
    ghost filled: { full ≡ filled_by lost },
}

// Holds the place of the next destination, and the number that fills the RERRs begun so far.
#[derive(Clone, Copy)]
struct Begun {
    place: usize,
    full: usize,
}

// Returns how many RERRs `lost` destinations take. It divides in 32 bits, where a division is cheap.
fn errors_taken(lost: usize) -> u32
    requires { lost ≤ most_rows }
    ensures { result ≡ errors_taken lost }
{
    (lost as u32 + (MOST_LOST as u32 - 1)) / MOST_LOST as u32
}

// Begins a RERR of n destinations at place `at`. Returns the place of its list.
fn begin(out: &mut [u8], at: usize, n: usize) -> usize
    requires n_bound { n ≤ 25 }
    requires at_in_bounds { at + 10 ≤ length out.old }
    ensures value { result ≡ at + 10 }
    ensures out_after { out.new ≡ overwrite out.old at (error_start n) }
{
    writing::start_rerr(out, at, Address(list::ALL_ONES), RerrFields { flags: 0 }, n)
}

impl Reported {
    pub fn nothing() -> Self
        ensures { result.lost ≡ 0 }
    {
        Reported {
            lost: 0,
            place: 0,
            full: 0,
        }
    }

    // Begins a RERR for one more destination, if those reported fill the RERRs begun so far. The room for the destination stands
    // in a clause here and in the functions that call this one, because the output is lent for writing.
    fn begin_if_full(self, out: &mut [u8]) -> Begun
        requires next_in_bounds { octets_for (self.lost + 1) ≤ length out.old }
        ensures place_after { result.place + 10 ≡ octets_for (self.lost + 1) }
        ensures full_after { result.full ≡ filled_by (self.lost + 1) }
        ensures out_after { out.new ≡ overwrite out.old (octets_for self.lost) (begun_before self.lost) }
    {
        if self.lost != self.full {
            return Begun {
                place: self.place,
                full: self.full,
            };
        }
        let place = begin(out, self.place, MOST_LOST);
        Begun {
            place,
            full: self.full + MOST_LOST,
        }
    }

    // Adds a destination.
    pub fn add(self, out: &mut [u8], entry: LostDestination) -> Self
        requires next_in_bounds { octets_for (self.lost + 1) ≤ length out.old }
        ensures value { result.lost ≡ self.lost + 1 }
        ensures out_after { out.new ≡ overwrite out.old (octets_for self.lost) (begun_after self.lost (entry ∷ [])) }
    {
        let begun = self.begin_if_full(out);
        let place = writing::write_lost(out, begun.place, entry);
        Reported {
            lost: self.lost + 1,
            place,
            full: begun.full,
        }
    }

    // Gives the last RERR its count, if that is not 25.
    pub fn close(self, out: &mut [u8])
        requires in_bounds { octets_for self.lost ≤ length out.old }
        ensures { out.new ≡ closed out.old 0 self.lost }
    {
        if self.lost == self.full {
            return;
        }
        let n = self.lost + MOST_LOST - self.full;
        begin(out, self.place - (writing::RERR_START + list::LOST * n), n);
    }

    // Returns what a break with these destinations has written.
    pub fn emitted(self) -> Emitted
        requires { self.lost ≤ most_rows }
        ensures { result ≡ record { frames = errors_taken self.lost; octets = octets_for self.lost } }
    {
        Emitted {
            frames: errors_taken(self.lost),
            octets: self.place as u32,
        }
    }
}

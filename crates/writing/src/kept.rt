// Writes the entries of a list part that a caller keeps, one after another. Those who write a RREQ
// or a RERR again share the loop.
ghost use Rattle.std.specs.Prelude.{◌≡◌, ◌+◌, ◌*◌, ◌≤◌, ℕ, List, [], Option, length};
ghost use Rattle.std.proofs.Common.{arith};
ghost use Rattle.std.specs.Option.{option_map_or};
ghost use mathlib.Core.List.{flat_map};
ghost use Rattle.octets.specs.LittleEndian.{overwrite};
ghost use Rattle.element.specs.Entries.{lost_at, lost_octets, target_at, target_octets};
ghost use Rattle.writing.specs.Kept.{KeepsBy, kept_in};
ghost use Rattle.element.proofs.ListParts.{loss_lists, target_lists};

use element::{LostDestination, Target, list};

// An entry of a list part: a destination of a RREQ or of a RERR.
pub trait Entry: Copy {
    // How many octets an entry has.
    const SIZE: usize;

    ghost SIZE: { ℕ };

    // Returns entry i of a list part.
    ghost entry_at: { List ℕ → ℕ → Self };

    ghost entry_octets: { Self → List ℕ };

    fn read(part: &[u8], i: usize) -> Self
        requires { SIZE * (i + 1) ≤ length part.now }
        ensures { result ≡ entry_at part.now i };

    // Returns the place after the octets that it wrote.
    fn write(self, out: &mut [u8], at: usize) -> usize
        requires { at + SIZE ≤ length out.old }
        ensures value { result ≡ at + SIZE }
        ensures out_after { out.new ≡ overwrite out.old at (entry_octets self) };

    ghost some_octets: { 1 ≤ SIZE };

    ghost long: { (xs : List Self) → length (flat_map entry_octets xs) ≡ SIZE * length xs };
}

impl Entry for Target {
    const SIZE: usize = list::TARGET;

    ghost SIZE = { 11 };

    ghost entry_at = { target_at };

    ghost entry_octets = { target_octets };

    ghost some_octets = { Prim.omega arith };

    ghost long = { target_lists.long };

    fn read(part: &[u8], i: usize) -> Target {
        list::target_at(part, i)
    }

    fn write(self, out: &mut [u8], at: usize) -> usize {
        crate::write_target(out, at, self)
    }
}

impl Entry for LostDestination {
    const SIZE: usize = list::LOST;

    ghost SIZE = { 10 };

    ghost entry_at = { lost_at };

    ghost entry_octets = { lost_octets };

    ghost some_octets = { Prim.omega arith };

    ghost long = { loss_lists.long };

    fn read(part: &[u8], i: usize) -> LostDestination {
        list::lost_at(part, i)
    }

    fn write(self, out: &mut [u8], at: usize) -> usize {
        crate::write_lost(out, at, self)
    }
}

// Writes the entry if there is one. Returns the place after what it wrote.
fn write_if<E: Entry>(out: &mut [u8], at: usize, entry: Option<E>) -> usize
    requires { at + E.SIZE ≤ length out.old }
    ensures value { result ≡ at + length (option_map_or E.entry_octets entry []) }
    ensures out_after { out.new ≡ overwrite out.old at (option_map_or E.entry_octets entry []) }
{
    match entry {
        Some(x) => x.write(out, at),
        None => at,
    }
}

// Writes what `keep` returns for each entry of `part`, in order, from place `at` on. Returns the place after what it wrote.
pub fn write_kept<E: Entry, F: Fn(E) -> Option<E>>(
    out: &mut [u8],
    at: usize,
    part: &[u8],
    keep: F,
) -> usize
    requires callable { F.IsAlwaysCallable keep }
    requires part_in_bounds { at + length part.now ≤ length out.old }
    ensures value { (k : E → Option E) → KeepsBy (F.post keep) k
        → result ≡ at + E.SIZE * length (kept_in E.entry_at E.SIZE k part.now) }
    ensures out_after { (k : E → Option E) → KeepsBy (F.post keep) k
        → out.new ≡ overwrite out.old at (flat_map E.entry_octets (kept_in E.entry_at E.SIZE k part.now)) }
{
    let n = part.len() / E::SIZE;
    let mut place = at;
    for i in 0..n {
        place = write_if(out, place, keep(E::read(part, i)));
    }
    place
}

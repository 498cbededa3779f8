// The tables side by side as pieces of one length, and what the checks ask of them.
ghost use Rattle.std.specs.Prelude.{◌≡◌, not, true, false, ◌+◌, ◌-◌, ◌*◌, ◌<◌, ◌≤◌, length, Option};
ghost use Rattle.std.specs.List.{find, range_with_len};
ghost use Rattle.std.specs.Result.{MatchResult};
ghost use Rattle.refusals.specs.declared.Refusal.TheVariants.{TableLength};
ghost use Rattle.layout.specs.Address.{same};
ghost use Rattle.layout.specs.Layout.{Sized, head_octets, most_rows, place};
ghost use Rattle.table.specs.Table.{is_table};
ghost use Rattle.element.specs.Entries.{each};
ghost use Rattle.element.specs.Lists.{contains, has_duplicate};
ghost use Rattle.rules.specs.Lists.{any};
ghost use Rattle.rules.specs.Walk.{has_later_clock, points, side_by_side, table_at, tables_in};
ghost use Rattle.walk.specs.Pieces.{point_at};

use layout::address::Address;
use layout::row;
use refusals::Refusal;
use table::legal;

// 1 to 16 pieces of one length, which is within the bounds for a table. A piece may turn out not to be a table. Whoever knows the
// facts of the ghost fields can make one.
#[derive(Clone, Copy)]
pub struct Pieces<'a> {
    pub octets: &'a [u8],
    pub long: usize,
    pub count: usize,
    pub ghost some_piece: { 1 ≤ count },
    pub ghost few: { count ≤ 16 },
    pub ghost whole: { count * long ≡ length octets.now },
    pub ghost with_head: { head_octets ≤ long },
    pub ghost not_longer: { long ≤ place most_rows },
}

// Returns table i, which is a part of the octets.
pub fn table_at(octets: &[u8], long: usize, i: usize) -> &[u8]
    requires { long * i + long ≤ length octets.now }
    ensures { result.now ≡ table_at octets.now long i }
{
    let from = long * i;
    &octets[from..from + long]
}

// Returns the own address of piece i, of pieces that are `long` octets long. The piece may turn out not to be a table.
pub fn point_at(octets: &[u8], long: usize, i: usize) -> Address
    requires within { long * i + long ≤ length octets.now }
    requires holds_address { 6 ≤ long }
    ensures { result ≡ point_at octets.now long i }
{
    Address(octets::read_u48(table_at(octets, long, i), 0))
}

// Reports whether the octets are 1 to 16 pieces of one length that a table may have.
fn are_side_by_side(octets: &[u8], count: usize) -> bool
    ensures { result ≡ side_by_side octets.now count }
{
    if count < 1 {
        return false;
    }
    if 16 < count {
        return false;
    }
    if octets.len() % count != 0 {
        return false;
    }
    legal::is_sized(table_at(octets, octets.len() / count, 0))
}

impl<'a> Pieces<'a> {
    // Returns the octets as `count` pieces, or refusal 1.
    pub fn split(octets: &'a [u8], count: usize) -> Result<Pieces<'a>, Refusal>
        ensures { MatchResult result
            (λ p. (p.octets.now ≡ octets.now) × (p.count ≡ count) × (side_by_side octets.now count ≡ true))
            (λ r. (r ≡ TableLength) × (side_by_side octets.now count ≡ false)) }
    {
        if !are_side_by_side(octets, count) {
            return Err(Refusal::TableLength);
        }
        let long = octets.len() / count;
        Ok(Pieces {
            octets,
            long,
            count,
        })
    }

    pub fn table_at(&self, i: usize) -> &'a [u8]
        requires { i < self.now.count }
        ensures value { result.now ≡ table_at self.now.octets.now self.now.long i }
        ensures sized { Sized result.now }
    {
        table_at(self.octets, self.long, i)
    }

    fn point_at(&self, i: usize) -> Address
        requires { i < self.now.count }
        ensures { result ≡ point_at self.now.octets.now self.now.long i }
    {
        point_at(self.octets, self.long, i)
    }

    // Returns the place of the point with this address. With `find` of the library, a walk through 16 points takes 48
    // instructions more: 24,020 for 23,972 at 16 rows (0.2 %), and 6,062 for 6,014 at one (0.8 %).
    pub fn find(&self, address: Address) -> Option<usize>
        ensures { result
            ≡ find (λ i. same (point_at self.now.octets.now self.now.long i) address) (range_with_len 0 self.now.count) }
    {
        for i in 0..self.count {
            if self.point_at(i) == address {
                return Some(i);
            }
        }
        None
    }

    // Reports whether a point from number `from` on has this address. With `any` of the library, a walk through 16 points takes
    // 550 instructions more: 24,522 for 23,972 at 16 rows (2.3 %), and 6,564 for 6,014 at one (9.1 %).
    fn contains_from(&self, from: usize, address: Address) -> bool
        ensures { result ≡ contains (each (point_at self.now.octets.now self.now.long) from (self.now.count - from)) address }
    {
        for i in from..self.count {
            if self.point_at(i) == address {
                return true;
            }
        }
        false
    }

    pub fn is_point(&self, address: Address) -> bool
        ensures { result ≡ contains (points (tables_in self.now.octets.now self.now.count)) address }
    {
        self.contains_from(0, address)
    }

    // Reports whether two points have equal addresses.
    pub fn has_duplicate(&self) -> bool
        ensures { result ≡ has_duplicate (points (tables_in self.now.octets.now self.now.count)) }
    {
        (0..self.count).any(|i| self.contains_from(i + 1, self.point_at(i)))
    }

    // Reports whether some piece is not a table.
    pub fn has_non_table(&self) -> bool
        ensures { result ≡ any (λ t. not (is_table t)) (tables_in self.now.octets.now self.now.count) }
    {
        (0..self.count).any(|i| !legal::is_table(self.table_at(i)))
    }

    // Reports whether the clock is below the latest clock of some table.
    pub fn has_later_clock(&self, clock: u64) -> bool
        ensures { result ≡ any (has_later_clock clock) (tables_in self.now.octets.now self.now.count) }
    {
        (0..self.count).any(|i| clock < row::read_head(self.table_at(i)).clock)
    }
}

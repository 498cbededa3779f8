// Each of the four kinds of counter is a struct of one number, so that none can stand in for another.
#![tactic(auto)]

pub mod own;

ghost use Rattle.std.specs.Prelude.{◌≡◌};
ghost use Rattle.counters.specs.Numbers.{newer, next_number, next_request, older, stepped};

#[derive(Clone, Copy, PartialEq, Eq)]
pub struct SequenceNumber(pub u32);

#[derive(Clone, Copy, PartialEq, Eq)]
pub struct RequestId(pub u32);

// Code compares the number inside of a metric, a hop count or a number with a constant: a value made to be compared is no
// plainer. Metrics have no derived order. With one, learn proves, but three edits that break its comparisons are then refused by
// a limit of the search, where they are refused for the fact that they break.
#[derive(Clone, Copy, PartialEq, Eq)]
pub struct Metric(pub u32);

#[derive(Clone, Copy, PartialEq, Eq)]
pub struct HopCount(pub u8);

// Returns n + 1. After 4,294,967,295 comes 0.
#[tactic(auto, unfolding(crate::specs::Numbers::stepped))]
fn one_more(n: u32) -> u32
    ensures { result ≡ stepped n }
{
    n.wrapping_add(1)
}

impl SequenceNumber {
    pub fn next(self) -> Self
        ensures { result ≡ next_number self }
    {
        SequenceNumber(one_more(self.0))
    }

    // Reports whether self - other, wrapped to 32 bits and read as signed, is above 0.
    pub fn is_newer(self, other: Self) -> bool
        ensures { result ≡ newer self other }
    {
        let distance = self.0.wrapping_sub(other.0);
        (0 < distance) & (distance < 2147483648)
    }

    // Reports whether self - other, wrapped to 32 bits and read as signed, is below 0.
    pub fn is_older(self, other: Self) -> bool
        ensures { result ≡ older self other }
    {
        2147483648 <= self.0.wrapping_sub(other.0)
    }
}

impl RequestId {
    pub fn next(self) -> Self
        ensures { result ≡ next_request self }
    {
        RequestId(one_more(self.0))
    }
}

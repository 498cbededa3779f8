// The elements RANN, RREQ, RREP and RERR: their fields as values, the bits of their flags, and their lists.
#![tactic(auto)]

pub mod flags;
pub mod list;

ghost use Rattle.std.specs.Prelude.{MatchResult, ◌≡◌, false, true};
ghost use Rattle.element.specs.Layout.{kind_with, known};

use counters::{HopCount, Metric, RequestId, SequenceNumber};
use layout::address::Address;

// The four types of element. The discriminant of a type is its ID.
#[derive(Clone, Copy, PartialEq, Eq)]
pub enum Kind {
    Rann = 126,
    Rreq = 130,
    Rrep = 131,
    Rerr = 132,
}

// Says that an ID is that of no type.
#[derive(Clone, Copy, PartialEq, Eq)]
pub struct UnknownKind;

#[tactic(auto, unfolding(crate::specs::Layout::known, crate::specs::Layout::kind_with))]
impl TryFrom<u8> for Kind {
    type Error = UnknownKind;

    ghost try_from_gives = { λ n r. MatchResult r (λ k. (known n ≡ true) × (k ≡ kind_with n)) (λ _. known n ≡ false) };

    fn try_from(id: u8) -> Result<Kind, UnknownKind> {
        match id {
            126 => Ok(Kind::Rann),
            130 => Ok(Kind::Rreq),
            131 => Ok(Kind::Rrep),
            132 => Ok(Kind::Rerr),
            _ => Err(UnknownKind),
        }
    }
}

// The fields that a RANN, a RREQ and a RREP share. The path leads to the subject: the originator of a RANN or a RREQ, the
// destination of a RREP.
#[derive(Clone, Copy, PartialEq, Eq)]
pub struct PathInfo {
    pub flags: u8,
    pub hops: HopCount,
    pub ttl: u8,
    pub subject: Address,
    pub number: SequenceNumber,
    pub lifetime: u32,
    pub metric: Metric,
}

// An address and its number: the source of a RREP, and each dependent of a RREP.
#[derive(Clone, Copy, PartialEq, Eq)]
pub struct NumberedAddress {
    pub address: Address,
    pub number: SequenceNumber,
}

// A destination of a RREQ, with flags of its own and the requested number. The later standard calls it a target.
#[derive(Clone, Copy, PartialEq, Eq)]
pub struct Target {
    pub flags: u8,
    pub address: Address,
    pub number: SequenceNumber,
}

// A destination of a RERR, which the transmitter can no longer reach, with the number that the RERR gives for it. It has the
// fields of a `NumberedAddress` and is a type of its own, because the published standard gives a destination of a RERR more
// fields.
#[derive(Clone, Copy, PartialEq, Eq)]
pub struct LostDestination {
    pub address: Address,
    pub number: SequenceNumber,
}

// An item of an ask: the destination to ask for, and the flags that the destination gets in the RREQ.
#[derive(Clone, Copy, PartialEq, Eq)]
pub struct Item {
    pub flags: u8,
    pub address: Address,
}

// The fixed fields of a RREQ. `RrepFields` and `RerrFields` are the fixed fields of a RREP and of a RERR.
#[derive(Clone, Copy, PartialEq, Eq)]
pub struct RreqFields {
    pub request: RequestId,
    pub path: PathInfo,
}

#[derive(Clone, Copy, PartialEq, Eq)]
pub struct RrepFields {
    pub path: PathInfo,
    pub source: NumberedAddress,
}

#[derive(Clone, Copy, PartialEq, Eq)]
pub struct RerrFields {
    pub flags: u8,
}

// The bits in the flags of a RREQ and in the flags of its destinations. A point ignores reserved bits and passes them on as
// received.
ghost use Rattle.std.specs.Prelude.{◌≡◌};
ghost use Rattle.element.specs.Flags.{has_do, has_rf, number_unknown, reply_wanted, unicast, with_do, with_unknown};

use crate::{PathInfo, Target};

#[tactic(auto, unfolding(crate::specs::Flags::bit))]
pub fn is_unicast(p: PathInfo) -> bool
    ensures { result ≡ unicast p }
{
    p.flags / 2 % 2 == 1
}

#[tactic(auto, unfolding(crate::specs::Flags::bit))]
pub fn is_reply_wanted(p: PathInfo) -> bool
    ensures { result ≡ reply_wanted p }
{
    p.flags / 4 % 2 == 1
}

// Reports whether only the destination itself may reply.
#[tactic(auto, unfolding(crate::specs::Flags::bit))]
pub fn has_do(q: Target) -> bool
    ensures { result ≡ has_do q }
{
    q.flags % 2 == 1
}

// Reports whether the destination is kept even after an intermediate reply.
#[tactic(auto, unfolding(crate::specs::Flags::bit))]
pub fn has_rf(q: Target) -> bool
    ensures { result ≡ has_rf q }
{
    q.flags / 2 % 2 == 1
}

// Reports whether the requested number is marked unknown. A number that is marked unknown plays no part.
#[tactic(auto, unfolding(crate::specs::Flags::bit))]
pub fn is_number_unknown(q: Target) -> bool
    ensures { result ≡ number_unknown q }
{
    q.flags / 4 % 2 == 1
}

#[tactic(auto, unfolding(crate::specs::Flags::with_do))]
pub fn with_do(q: Target) -> Target
    ensures { result ≡ with_do q }
{
    Target {
        flags: 2 * (q.flags / 2) + 1,
        address: q.address,
        number: q.number,
    }
}

// Returns the flags of a destination with 'number unknown' set.
#[tactic(auto, unfolding(crate::specs::Flags::with_unknown))]
pub fn with_unknown(flags: u8) -> u8
    ensures { result ≡ with_unknown flags }
{
    8 * (flags / 8) + 4 + flags % 4
}

// The numbered refusals of docs/PROTOCOL.md, 'Refusals'.
#![tactic(auto)]

ghost use Rattle.std.specs.Prelude.{◌≡◌};
ghost use Rattle.refusals.specs.Numbers.{answer_of, number_of};

// Why a call is refused. A refusal's discriminant is its number in PROTOCOL.
#[derive(Clone, Copy, PartialEq, Eq, Debug)]
pub enum Refusal {
    // The table's length is not 32 + 32R with R from 1 to 128. Walk: the count is not 1 to 16, or the octets are not as many
    // tables as the count says, all of one length that a table may have.
    TableLength = 1,

    // The output has fewer than 1,560 octets, whatever the call would write.
    ShortOutput = 2,

    // The clock is above 2^48 - 1.
    ClockTooLarge = 3,

    // The transmitter or the broken neighbour is not an individual address.
    BadNeighbour = 4,

    // The link metric is 0, for any type of element.
    NoLink = 5,

    // The element has fewer than 2 octets, or its Length differs from the number of octets after it.
    ElementLength = 6,

    // The ID is not that of a RANN, RREQ, RREP or RERR.
    UnknownId = 7,

    // Receive: Length is not what PROTOCOL, 'Elements', gives for the type and N, or N is outside the range of the type, or the
    // element ends before its N. Ask: the items are not 1 to 20 of 7 octets each.
    BadCount = 8,

    // An address is not individual: the own address of a fresh table; the address in an item of an ask; the destination of a next
    // hop, a forget or a walk; a received originator, source or destination, except that a RREQ's destination may be all ones.
    BadAddress = 9,

    // An address stands twice or where it may not, or flags are not allowed. Walk: the start is not among the points, or two
    // points have equal addresses.
    BadList = 10,

    // The lifetime is 0.
    NoLifetime = 11,

    // The received hop count is 255.
    TooManyHops = 12,

    // The received metric plus the link metric is above 4,294,967,294.
    MetricTooLarge = 13,

    // A received RREP has TTL 0 or 1.
    LowTtl = 14,

    // The octets are not a table (PROTOCOL, 'Table'). Walk: the octets of any table are not a table.
    NotATable = 21,

    // The clock is below the latest clock. Walk: the clock is below the latest clock of any table.
    OldClock = 22,

    // The transmitter or the broken neighbour is the own address.
    FromItself = 23,

    // Receive: the subject of a RANN, RREQ or RREP is the own address. Ask: an item names the own address.
    AboutItself = 24,

    // The subject has a held row of known number, active or not, and the received number is older, or it is equal and the
    // received metric plus the link metric is not smaller than the row's metric.
    Stale = 25,

    // A received RERR has no match: none of its destinations has an active row of known number with the transmitter as its
    // next hop.
    NoMatch = 26,

    // The call needs more new rows than are free, in whatever places the free rows lie.
    NoRoom = 27,

    // Next hop: there is no active row for the destination.
    NoNextHop = 28,

    // Forget: there is no held row for the destination.
    NotHeld = 29,
}

impl From<Refusal> for u32 {
    ghost from_gives = { λ r n. n ≡ number_of r };

    fn from(refusal: Refusal) -> u32 {
        refusal as u32
    }
}

// Returns the number of an answer: 0 for an acceptance, otherwise the number of the refusal.
pub fn number_of(answer: Result<(), Refusal>) -> u32
    ensures { result ≡ answer_of answer }
{
    match answer {
        Ok(()) => 0,
        Err(refusal) => u32::from(refusal),
    }
}

// The checks of announce and root request, and what these two calls and ask have in common: the numbering of a new element,
// and the path that a point states of itself.
ghost use Rattle.std.specs.Prelude.{◌≡◌, ◌≤◌, length};
ghost use Rattle.octets.specs.LittleEndian.{overwrite};
ghost use Rattle.element.specs.declared.Kind.{Kind};
ghost use Rattle.element.specs.Element.{rreq_numbers};
ghost use Rattle.element.specs.Lists.{all_ones};
ghost use Rattle.element.specs.Octets.{frame_start};
ghost use Rattle.rules.specs.Originate.{originating, own_path, own_request, numbered_head};
ghost use Rattle.calls.specs.Answers.{answer_to};

use counters::own::OwnCounters;
use counters::{HopCount, Metric, own};
use element::{PathInfo, RreqFields, list};
use layout::address::Address;
use layout::row::Head;
use refusals::Refusal;
use table::legal;

// Checks an announcement or a root request. `barred` says whether the flags are barred, since the two calls bar different
// flags.
pub fn check(table: &[u8], output: &[u8], barred: bool, lifetime: u32) -> Result<(), Refusal>
    ensures { result ≡ answer_to
        (originating {A = Unit {0}} table.now (length output.now) barred lifetime tt).checks }
{
    if !legal::is_sized(table) {
        return Err(Refusal::TableLength);
    }
    if output.len() < calls::LEAST_OUTPUT {
        return Err(Refusal::ShortOutput);
    }
    if barred {
        return Err(Refusal::BadList);
    }
    if lifetime == 0 {
        return Err(Refusal::NoLifetime);
    }
    if !legal::is_table(table) {
        return Err(Refusal::NotATable);
    }
    Ok(())
}

// Numbers a new element, which is a RREQ or not. The element has the counters of the head that is returned.
pub fn number_head(head: Head, rreq: bool) -> Head
    ensures { result ≡ numbered_head rreq head }
{
    let counters = OwnCounters {
        number: head.number,
        request: head.request,
    };
    let advanced = own::numbered(counters, rreq);
    head.with(advanced.number, advanced.request, head.clock)
}

// Returns the path that the point with this head states of itself.
pub fn own_path(head: Head, flags: u8, lifetime: u32) -> PathInfo
    ensures { result ≡ own_path head flags lifetime }
{
    PathInfo {
        flags,
        hops: HopCount(0),
        ttl: calls::INITIAL_TTL,
        subject: head.own,
        number: head.number,
        lifetime,
        metric: Metric(0),
    }
}

// Writes a RREQ of the point with this head, up to its list of n destinations. Returns the place of that list.
pub fn start_request(output: &mut [u8], head: Head, flags: u8, lifetime: u32, n: usize) -> usize
    requires le_n { 1 ≤ n }
    requires n_bound { n ≤ 20 }
    requires in_bounds { 34 ≤ length output.old }
    ensures value { result ≡ 34 }
    ensures output_after { output.new
        ≡ overwrite output.old 0 (frame_start all_ones Kind.Rreq n (rreq_numbers (own_request head flags lifetime))) }
{
    let fields = RreqFields {
        request: head.request,
        path: own_path(head, flags, lifetime),
    };
    writing::start_rreq(output, 0, Address(list::ALL_ONES), fields, n)
}

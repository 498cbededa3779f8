// The checks of an element with a path: a RANN, a RREQ or a RREP.
ghost use Rattle.std.specs.Prelude.{◌≡◌, ◌≤◌, ltb, Some};
ghost use Rattle.layout.specs.Row.{max_clock};
ghost use Rattle.rules.specs.Learn.{metric_here, Extends, max_metric};
ghost use Rattle.rules.specs.Receive.{field_checks};
ghost use Rattle.calls.specs.Answers.{answer_to};
ghost use Rattle.learn.specs.Learnt.{learnt_if};
ghost use Rattle.receive.specs.Checks.{path_checks, path_state_checks};
ghost use Rattle.layout.specs.Layout.{Sized};

use crate::faults::Faults;
use calls::clocked;
use element::PathInfo;
use refusals::Refusal;
use rules::Arrival;

// Reports whether received metric + link metric is above 4,294,967,294.
fn is_too_far(a: Arrival, p: PathInfo) -> bool
    ensures { result ≡ ltb max_metric (metric_here a p).0 }
{
    4294967294 < p.metric.0 as u64 + a.link.0 as u64
}

// Checks the element alone: refusals 9 to 14.
fn check_fields(a: Arrival, p: PathInfo, faults: Faults) -> Result<(), Refusal>
    ensures { result ≡ answer_to (field_checks faults.address faults.list faults.ttl a (Some p)) }
{
    if faults.address {
        return Err(Refusal::BadAddress);
    }
    if faults.list {
        return Err(Refusal::BadList);
    }
    if p.lifetime == 0 {
        return Err(Refusal::NoLifetime);
    }
    if p.hops.0 == 255 {
        return Err(Refusal::TooManyHops);
    }
    if is_too_far(a, p) {
        return Err(Refusal::MetricTooLarge);
    }
    if faults.ttl {
        return Err(Refusal::LowTtl);
    }
    Ok(())
}

// Checks the state, refusals 21 to 25 and 27, and does steps 1 and 2 if none applies. Because the point learns in here, the
// place of the subject's row need not be handed back.
fn learn(table: &mut [u8], a: Arrival, p: PathInfo) -> Result<(), Refusal>
    requires sized { Sized table.old }
    requires clock_le_max_clock { a.clock ≤ max_clock }
    requires extends { Extends a p }
    ensures value { result ≡ answer_to (path_state_checks table.old a p) }
    ensures table_after { table.new ≡ learnt_if result a p table.old }
{
    clocked::check_state(table, a.clock, a.transmitter)?;
    learn::learn_by_rows(table, a, p)
}

// Refuses the element, or does steps 1 and 2. `faults` are those of the element that has the path p.
pub fn check_and_learn(
    table: &mut [u8],
    a: Arrival,
    p: PathInfo,
    faults: Faults,
) -> Result<(), Refusal>
    requires sized { Sized table.old }
    requires clock_le_max_clock { a.clock ≤ max_clock }
    ensures value { result ≡ answer_to (path_checks table.old a p faults) }
    ensures table_after { table.new ≡ learnt_if result a p table.old }
{
    check_fields(a, p, faults)?;
    learn(table, a, p)
}

// Checks a received RANN, RREQ or RREP against the table, and learns from it. The checks are refusals 24, 25 and 27.
#![tactic(auto)]

mod room;
mod stale;
mod steps;

ghost use Rattle.std.specs.Prelude.{◌≡◌, false, ◌≤◌, Some};
ghost use Rattle.layout.specs.Layout.{Sized};
ghost use Rattle.layout.specs.Row.{max_clock};
ghost use Rattle.rules.specs.Learn.{Extends};
ghost use Rattle.rules.specs.Receive.{row_checks};
ghost use Rattle.calls.specs.Answers.{answer_to};
ghost use Rattle.learn.specs.Learnt.{learnt_if};

use element::PathInfo;
use layout::row;
use refusals::Refusal;
use rules::Arrival;
use table::search;

// An element that the point has heard: how it arrived, and its path, which can be one link longer.
#[derive(Clone, Copy)]
struct Heard {
    arrival: Arrival,
    path: PathInfo,
    ghost in_time: { arrival.clock ≤ max_clock },
    ghost extends: { Extends arrival path },
}

// Checks refusals 24, 25 and 27. If none applies, does steps 1 and 2. It looks for the subject's row only once.
pub fn learn_by_rows(table: &mut [u8], a: Arrival, p: PathInfo) -> Result<(), Refusal>
    requires sized { Sized table.old }
    requires clock_le_max_clock { a.clock ≤ max_clock }
    requires extends { Extends a p }
    ensures value { result ≡ answer_to (row_checks table.old a false (Some p)) }
    ensures table_after { table.new ≡ learnt_if result a p table.old }
{
    if p.subject == row::read_head(table).own {
        return Err(Refusal::AboutItself);
    }
    let heard = Heard {
        arrival: a,
        path: p,
    };
    let found = search::find_row(table, p.subject);
    if heard.is_stale(table, found) {
        return Err(Refusal::Stale);
    }
    if heard.lacks_rows(table, found) {
        return Err(Refusal::NoRoom);
    }
    heard.learn(table, found);
    Ok(())
}

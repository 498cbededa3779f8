// The calls of a point that may emit frames.
ghost use Rattle.std.specs.Prelude.{◌≡◌, length};
ghost use Rattle.rules.specs.Calls.{OperandsFit, decision};
ghost use Rattle.rules.specs.Exit.{at_exit, lend};
ghost use Rattle.calls.specs.Answers.{exit_of};
ghost use Rattle.bench_rules.specs.Bench.{called};
ghost use Rattle.bench_rules.specs.Interpreter.{leaving_links};
ghost use Rattle.bench_points.specs.InCode.{FaultKeeps, bench_of, came_in};
ghost use Rattle.bench_core.specs.InCode.{call_of};

use crate::settle;
use bench_points::points::TABLE;
use bench_points::{Bench, Fault, Printed};
use bench_slots::{SLOTS, Slot};
use breaking::break_neighbour;
use calls::{Emitted, LEAST_OUTPUT};
use layout::address::Address;
use originate::announce;
use refusals::Refusal;
use rules::Arrival;

// A call with its operands: an ask with a lifetime and an item, an announcement with a lifetime, a receive of the frame in a
// slot, or a break with the clock and the neighbour. A `Call` is a value, and no closure that makes the call: the contract of
// such a closure would have to name the call of the rules for any table and output.
#[derive(Clone, Copy)]
pub enum Call {
    Ask(u32, [u8; 7]),
    Announce(u32),
    Receive(Arrival, Slot),
    Break(u64, Address),
}

// Makes a call with the table and the output that it is lent. The frame that a point receives is in the slots.
fn make_with(
    call: Call,
    table: &mut [u8],
    output: &mut [u8],
    slots: &[u8; SLOTS],
) -> Result<Emitted, Refusal>
    ensures { exit_of result (lend table.new) output.new
        ≡ at_exit (lend table.old) output.old
        (decision (lend table.old) (length output.old) (call_of slots.now call)) }
{
    match call {
        Call::Ask(lifetime, item) => ask::ask(table, output, lifetime, &item),
        Call::Announce(lifetime) => announce::announce(table, output, 0, lifetime),
        Call::Receive(arrival, slot) => {
            receive::receive(table, output, arrival, bench_slots::element_of(slots, slot))
        }
        Call::Break(clock, neighbour) => {
            break_neighbour::break_neighbour(table, output, clock, neighbour)
        }
    }
}

// Lets point p make a call, which is lent the table of p and an output. Keeps the frames that the call emits, and returns its
// line. It is a fault if there is no point p.
#[tactic(auto, unfolding(bench_rules::specs::Bench::called))]
pub fn make_call(bench: &mut Bench, p: u8, call: Call) -> Result<Printed, Fault>
    requires { OperandsFit (call_of bench.old.slots call) }
    ensures bench_after { came_in result bench.new
        ≡ leaving_links bench.old.links
        (called (bench_of bench.old) p (call_of bench.old.slots call)) }
    ensures fault_keeps { FaultKeeps result bench.old bench.new }
{
    let i = bench.point(p)?;
    let at = TABLE * i;
    let mut output = [0u8; LEAST_OUTPUT];
    let Bench { tables, slots, .. } = bench;
    let part = &mut tables[at..at + TABLE];
    let outcome = make_with(call, part, &mut output, slots);
    settle::settle(bench, p, outcome, &output)
}

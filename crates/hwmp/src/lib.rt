// The calls for C, on numbers and octet buffers. `include/hwmp.h` declares them.
#![tactic(auto)]

ghost use Rattle.std.specs.Prelude.{◌≡◌, ◌≤◌};
ghost use Rattle.layout.specs.Address.{address_of};
ghost use Rattle.rules.specs.Exit.{lend};
ghost use Rattle.rules.specs.Exits.{
  announce_exit,
  ask_exit,
  break_exit,
  forget_exit,
  fresh_exit,
  receive_exit,
  root_request_exit,
  walk_exit,
};
ghost use Rattle.rules.specs.NextHop.{next_hop};
ghost use Rattle.walk.specs.Answers.{numbers_of};
ghost use Rattle.hwmp.specs.ForC.{hop_for_c, exit_for_c, outcome_for_c};

use breaking::break_neighbour;
use calls::Emitted;
use counters::{Metric, SequenceNumber};
use layout::address::Address;
use originate::{announce, root_request};
use refusals::Refusal;
use rules::Arrival;
use table_calls::{forget, fresh, next_hop};
use walk::Walked;

// What C gets. The answers are numbers, because C has no `Result`.
#[repr(C)]
#[derive(Clone, Copy)]
pub struct HwmpHop {
    pub answer: u32,
    pub address: [u8; 6],
}

#[repr(C)]
#[derive(Clone, Copy)]
pub struct HwmpOutcome {
    pub answer: u32,
    pub frames: u32,
    pub octets: u32,
}

// A next hop for C: answer 0 and the address, or the refusal's number and zeros.
impl From<Result<Address, Refusal>> for HwmpHop {
    ghost from_gives = { λ hop c. c ≡ hop_for_c hop };

    fn from(hop: Result<Address, Refusal>) -> HwmpHop {
        match hop {
            Ok(next) => HwmpHop {
                answer: 0,
                address: next.octets(),
            },
            Err(refusal) => HwmpHop {
                answer: u32::from(refusal),
                address: [0u8; 6],
            },
        }
    }
}

// The result of a call that may emit frames, for C: answer 0 with the counts of frames and octets written, or the refusal's
// number and zeros.
impl From<Result<Emitted, Refusal>> for HwmpOutcome {
    ghost from_gives = { λ outcome c. c ≡ outcome_for_c outcome };

    fn from(outcome: Result<Emitted, Refusal>) -> HwmpOutcome {
        match outcome {
            Ok(emitted) => HwmpOutcome {
                answer: 0,
                frames: emitted.frames,
                octets: emitted.octets,
            },
            Err(refusal) => HwmpOutcome {
                answer: u32::from(refusal),
                frames: 0,
                octets: 0,
            },
        }
    }
}

// Each entry hands its operands on. The entries for C have bodies of one shape where their calls take operands of one kind.
#[unsafe(no_mangle)]
pub extern "C" fn hwmp_fresh(table: &mut [u8], own: &[u8; 6], number: u32) -> u32
    ensures { record { answer = result; table = table.new }
        ≡ fresh_exit table.old (address_of own.now) (record { 0 = number }) }
{
    refusals::number_of(fresh::make_fresh(table, Address::from(own), SequenceNumber(number)))
}

#[unsafe(no_mangle)]
pub extern "C" fn hwmp_forget(table: &mut [u8], destination: &[u8; 6]) -> u32
    ensures { record { answer = result; table = table.new }
        ≡ forget_exit table.old (address_of destination.now) }
{
    refusals::number_of(forget::forget(table, Address::from(destination)))
}

#[unsafe(no_mangle)]
pub extern "C" fn hwmp_next_hop(table: &[u8], clock: u64, destination: &[u8; 6]) -> HwmpHop
    ensures { result ≡ hop_for_c (next_hop table.now clock (address_of destination.now)) }
{
    HwmpHop::from(next_hop::next_hop(table, clock, Address::from(destination)))
}

#[unsafe(no_mangle)]
pub extern "C" fn hwmp_receive(
    table: &mut [u8],
    output: &mut [u8],
    clock: u64,
    transmitter: &[u8; 6],
    link: u32,
    element: &[u8],
) -> HwmpOutcome
    ensures { exit_for_c result (lend table.new) output.new
        ≡ receive_exit (lend table.old) output.old
        (record { clock = clock; transmitter = address_of transmitter.now; link = record { 0 = link } })
        element.now }
{
    let arrival = Arrival {
        clock,
        transmitter: Address::from(transmitter),
        link: Metric(link),
    };
    HwmpOutcome::from(receive::receive(table, output, arrival, element))
}

#[unsafe(no_mangle)]
pub extern "C" fn hwmp_ask(
    table: &mut [u8],
    output: &mut [u8],
    lifetime: u32,
    items: &[u8],
) -> HwmpOutcome
    ensures { exit_for_c result (lend table.new) output.new
        ≡ ask_exit (lend table.old) output.old lifetime items.now }
{
    HwmpOutcome::from(ask::ask(table, output, lifetime, items))
}

#[unsafe(no_mangle)]
pub extern "C" fn hwmp_announce(
    table: &mut [u8],
    output: &mut [u8],
    flags: u8,
    lifetime: u32,
) -> HwmpOutcome
    ensures { exit_for_c result (lend table.new) output.new
        ≡ announce_exit (lend table.old) output.old flags lifetime }
{
    HwmpOutcome::from(announce::announce(table, output, flags, lifetime))
}

#[unsafe(no_mangle)]
pub extern "C" fn hwmp_root_request(
    table: &mut [u8],
    output: &mut [u8],
    flags: u8,
    lifetime: u32,
) -> HwmpOutcome
    ensures { exit_for_c result (lend table.new) output.new
        ≡ root_request_exit (lend table.old) output.old flags lifetime }
{
    HwmpOutcome::from(root_request::root_request(table, output, flags, lifetime))
}

#[unsafe(no_mangle)]
pub extern "C" fn hwmp_break(
    table: &mut [u8],
    output: &mut [u8],
    clock: u64,
    neighbour: &[u8; 6],
) -> HwmpOutcome
    ensures { exit_for_c result (lend table.new) output.new
        ≡ break_exit (lend table.old) output.old clock (address_of neighbour.now) }
{
    HwmpOutcome::from(break_neighbour::break_neighbour(
        table,
        output,
        clock,
        Address::from(neighbour),
    ))
}

#[unsafe(no_mangle)]
pub extern "C" fn hwmp_walk(
    tables: &[u8],
    count: u32,
    clock: u64,
    start: &[u8; 6],
    destination: &[u8; 6],
) -> Walked
    ensures result_value { numbers_of result
        ≡ walk_exit tables.now count clock (address_of start.now) (address_of destination.now) }
    ensures hops_le_count { result.hops ≤ count }
{
    let from = Address::from(start);
    let to = Address::from(destination);
    Walked::from(walk::walk(tables, count, clock, from, to))
}

// The commands that may emit frames: ask, announce, deliver and break.
ghost use Rattle.std.specs.Prelude.{◌≡◌, ◌∷◌, ◌<◌};
ghost use Rattle.octets.specs.LittleEndian.{number_octets};
ghost use Rattle.bench_rules.specs.Commands.{announce_self, arrival_from, ask_for, break_off, deliver};
ghost use Rattle.bench_rules.specs.Interpreter.{leaving_links};
ghost use Rattle.bench_points.specs.InCode.{FaultKeeps, bench_of, came_in};

use crate::calling::{self, Call};
use bench_points::{Bench, Fault, Printed, points};
use counters::Metric;
use layout::address::Address;
use rules::Arrival;

// Returns the item of an ask: flags and address.
fn item_of(flags: u8, destination: Address) -> [u8; 7]
    ensures { result ≡ flags ∷ number_octets 6 destination.0 }
{
    let mut item = [0u8; 7];
    item[0] = flags;
    octets::write_u48(&mut item, 1, destination.0);
    item
}

// Lets point p ask for one destination.
#[tactic(auto, unfolding(bench_rules::specs::Commands::ask_for))]
pub fn ask_for(
    bench: &mut Bench,
    p: u8,
    flags: u8,
    destination: Address,
    lifetime: u32,
) -> Result<Printed, Fault>
    ensures bench_after { came_in result bench.new
        ≡ leaving_links bench.old.links
        (ask_for (bench_of bench.old) p flags destination lifetime) }
    ensures fault_keeps { FaultKeeps result bench.old bench.new }
{
    let item = item_of(flags, destination);
    calling::make_call(bench, p, Call::Ask(lifetime, item))
}

// Lets point p announce itself, with flags 0.
#[tactic(auto, unfolding(bench_rules::specs::Commands::announce_self))]
pub fn announce_self(bench: &mut Bench, p: u8, lifetime: u32) -> Result<Printed, Fault>
    ensures bench_after { came_in result bench.new
        ≡ leaving_links bench.old.links (announce_self (bench_of bench.old) p lifetime) }
    ensures fault_keeps { FaultKeeps result bench.old bench.new }
{
    calling::make_call(bench, p, Call::Announce(lifetime))
}

// Returns how a frame arrives from its sender: over the link between the two points.
fn arrival_from(bench: &Bench, sender: u8, p: usize) -> Arrival
    requires { (sender < 16) × (p < 16) }
    ensures { result ≡ arrival_from bench.now.tables bench.now.links bench.now.clock sender p }
{
    Arrival {
        clock: bench.clock,
        transmitter: points::address_of(&bench.tables, sender as usize),
        link: Metric(bench_links::metric_between(&bench.links, sender as usize, p)),
    }
}

// Delivers frame k from its sender to point p, whatever the receiver address of the frame is.
#[tactic(auto, unfolding(bench_rules::specs::Commands::deliver, bench_rules::specs::Bench::called))]
pub fn deliver_frame(bench: &mut Bench, k: u16, p: u8) -> Result<Printed, Fault>
    ensures bench_after { came_in result bench.new
        ≡ leaving_links bench.old.links
        (deliver (bench_of bench.old) bench.old.links k p) }
    ensures fault_keeps { FaultKeeps result bench.old bench.new }
{
    let slot = bench.slot(k)?;
    let receiver = bench.point(p)?;
    let sender = bench_slots::sender_of(&bench.slots, slot);
    let arrival = arrival_from(bench, sender, receiver);
    calling::make_call(bench, p, Call::Receive(arrival, slot))
}

// Lets point p report point q as a broken neighbour. If q is p itself, the call is refused.
#[tactic(auto, unfolding(bench_rules::specs::Commands::break_off))]
pub fn break_off(bench: &mut Bench, p: u8, q: u8) -> Result<Printed, Fault>
    ensures bench_after { came_in result bench.new
        ≡ leaving_links bench.old.links (break_off (bench_of bench.old) p q) }
    ensures fault_keeps { FaultKeeps result bench.old bench.new }
{
    let q = bench.point(q)?;
    let neighbour = points::address_of(&bench.tables, q);
    calling::make_call(bench, p, Call::Break(bench.clock, neighbour))
}

// Finds out which command comes first, and whether all its operands are there.
ghost use Rattle.std.specs.Prelude.{IfOk, ◌≡◌, ◌<◌, ◌≤◌, length};
ghost use Rattle.octets.specs.LittleEndian.{number_at};
ghost use Rattle.bench_commands.specs.Commands.{octet_of};
ghost use Rattle.bench_rules.specs.Interpreter.{command, length_of, obeyed};
ghost use Rattle.bench_points.specs.InCode.{FaultKeeps, bench_of, came_in};
ghost use Rattle.bench_core.specs.InCode.{printed_of};

use crate::traffic;
use bench_commands::Command;
use bench_points::{Bench, Fault, Printed, links, points};
use counters::SequenceNumber;
use layout::address::Address;

// The line of a command: the command, and what it prints after its number.
#[derive(Clone, Copy, PartialEq, Eq, Debug)]
pub struct Line {
    pub command: Command,
    pub printed: Printed,
}

// Obeys a command, with its operands in the input. The caller must know that all operands are there.
#[tactic(auto, unfolding(bench_rules::specs::Interpreter::obeyed))]
fn obey(command: Command, input: &[u8], bench: &mut Bench) -> Result<Printed, Fault>
    requires { length_of (octet_of command) ≤ length input.now }
    ensures bench_after { came_in result bench.new
        ≡ obeyed (bench_of bench.old) bench.old.links input.now (octet_of command) }
    ensures fault_keeps { FaultKeeps result bench.old bench.new }
{
    match command {
        Command::Point => {
            let own = Address(octets::read_u48(input, 1));
            let number = SequenceNumber(octets::read_u32(input, 7));
            points::add_point(bench, own, number)
        }
        Command::Advance => points::advance_clock(bench, octets::read_u32(input, 1)),
        Command::Link => {
            let p = octets::read_u8(input, 1);
            let q = octets::read_u8(input, 2);
            links::link_points(bench, p, q, octets::read_u32(input, 3))
        }
        Command::Ask => {
            let p = octets::read_u8(input, 1);
            let flags = octets::read_u8(input, 2);
            let destination = Address(octets::read_u48(input, 3));
            traffic::ask_for(bench, p, flags, destination, octets::read_u32(input, 9))
        }
        Command::Announce => {
            let p = octets::read_u8(input, 1);
            traffic::announce_self(bench, p, octets::read_u32(input, 2))
        }
        Command::Deliver => {
            let k = octets::read_u16(input, 1);
            traffic::deliver_frame(bench, k, octets::read_u8(input, 3))
        }
        Command::Break => {
            let p = octets::read_u8(input, 1);
            traffic::break_off(bench, p, octets::read_u8(input, 2))
        }
        Command::Walk => {
            let p = octets::read_u8(input, 1);
            points::walk_to(bench, p, octets::read_u8(input, 2))
        }
    }
}

// Obeys the command at the start of the input, and returns its line. An unknown command or a cut operand is a fault.
#[tactic(auto, unfolding(bench_rules::specs::Interpreter::command, octets::specs::LittleEndian::number_at))]
pub fn obey_first(input: &[u8], bench: &mut Bench) -> Result<Line, Fault>
    requires { 0 < length input.now }
    ensures bench_after { came_in (printed_of result) bench.new
        ≡ command (bench_of bench.old) bench.old.links input.now }
    ensures fault_keeps { FaultKeeps result bench.old bench.new }
    ensures command_is { IfOk result (λ line. octet_of line.command ≡ number_at 1 input.now 0) }
{
    let Ok(command) = Command::try_from(octets::octet(input, 0)) else {
        return Err(Fault);
    };
    if input.len() < command.length() {
        return Err(Fault);
    }
    let printed = obey(command, input, bench)?;
    Ok(Line { command, printed })
}

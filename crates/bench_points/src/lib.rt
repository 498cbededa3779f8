// The bench: its points and the links between them, the commands that emit no frames, and the result of a command.
#![tactic(auto)]

pub mod links;
pub mod points;

ghost use Rattle.std.specs.Prelude.{MatchResult, ◌≡◌, ◌<◌, ◌≤◌};
ghost use Rattle.bench_links.specs.Links.{no_links};
ghost use Rattle.layout.specs.Row.{max_clock};
ghost use Rattle.octets.specs.LittleEndian.{Octets, zeros};
ghost use Rattle.bench_slots.specs.Slots.{SentBelow};
ghost use Rattle.bench_points.specs.Facts.{octets_prop};

use bench_links::Metrics;
use bench_slots::{SLOTS, Slot};
use points::TABLES;

// What the bench holds: how many points and frames there are, the clock, the tables of all points side by side, the slots of all
// frames, and the link metrics. A point sent each frame that is kept.
#[derive(Drop)]
pub struct Bench {
    pub points: usize,
    pub frames: usize,
    pub clock: u64,
    pub tables: [u8; TABLES],
    pub slots: [u8; SLOTS],
    pub links: Metrics,
    pub ghost few_points: { points ≤ 16 },
    pub ghost few_frames: { frames ≤ 128 },
    pub ghost in_time: { clock ≤ max_clock },
    pub ghost table_octets: { Octets tables } by { octets_prop tables },
    pub ghost slot_octets: { Octets slots } by { octets_prop slots },
    pub ghost sent: { SentBelow points frames slots },
}

// What a command prints after its own number: its answer or refusal, and the number of frames or hops. Both are numbers, because
// numbers are printed.
#[derive(Clone, Copy, PartialEq, Eq, Debug)]
pub struct Printed {
    pub answer: u32,
    pub third: u32,
}

// Says that a command is at fault. A fault ends the bench.
#[derive(Clone, Copy, PartialEq, Eq, Debug)]
pub struct Fault;

impl Bench {
    ghost use Rattle.bench_points.specs.InCode.{contents};

    // Returns a bench without points, frames and links, at clock 0.
    pub fn new() -> Bench
        ensures { contents result ≡ record {
          points = 0;
          frames = 0;
          clock = 0;
          tables = zeros 8704;
          slots = zeros 33792;
          links = no_links;
        } }
    {
        let links = bench_links::none();
        Bench {
            points: 0,
            frames: 0,
            clock: 0,
            tables: [0u8; TABLES],
            slots: [0u8; SLOTS],
            links,
        }
    }

    // Returns the index of point p. It is a fault if there is no point p.
    pub fn point(&self, p: u8) -> Result<usize, Fault>
        ensures { MatchResult result (λ i. (i ≡ p) × (p < self.now.points)) (λ _. self.now.points ≤ p) }
    {
        let p = p as usize;
        if self.points <= p {
            return Err(Fault);
        }
        Ok(p)
    }

    // Returns the slot of frame k. It is a fault if there is no frame k.
    pub fn slot(&self, k: u16) -> Result<Slot, Fault>
        ensures { MatchResult result (λ slot. (slot.number ≡ k) × (k < self.now.frames)) (λ _. self.now.frames ≤ k) }
    {
        let k = k as usize;
        if self.frames <= k {
            return Err(Fault);
        }
        Ok(Slot { number: k })
    }
}

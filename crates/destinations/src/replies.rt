// Writes the replies to a RREQ, one after another. The table is the one after steps 1 and 2.
ghost use Rattle.std.specs.Prelude.{◌≡◌, [], ◌∷◌, ◌+◌, ◌<◌, ◌≤◌, length};
ghost use Rattle.octets.specs.LittleEndian.{overwrite};
ghost use Rattle.counters.specs.Numbers.{next_number};
ghost use Rattle.table.specs.Table.{own};
ghost use Rattle.layout.specs.Layout.{Sized};
ghost use Rattle.element.specs.Layout.{PartOf};
ghost use Rattle.element.specs.declared.Kind.{Kind};
ghost use Rattle.element.specs.Entries.{targets_in};
ghost use Rattle.answering.specs.Answering.{answering_row};
ghost use Rattle.rules.specs.Destinations.{all_answered, answered, newer_of, reply_fields};
ghost use Rattle.rules.specs.Exit.{frame_octets};
ghost use Rattle.destinations.specs.Replies.{RepliesTo, by_row, of_oneself, of_row, replied_after, replied_from, reply_saying};

use counters::own::OwnCounters;
use counters::{HopCount, Metric, SequenceNumber, own};
use element::{NumberedAddress, PathInfo, RrepFields, Target, flags, list};
use layout::address::Address;
use layout::row;
use layout::row::{Head, Row};
use rules::Arrival;

// Holds the own number so far, the number of replies written, and the place after them in the output.
#[derive(Clone, Copy)]
pub struct Replied {
    pub number: SequenceNumber,
    pub frames: u32,
    pub place: usize,
}

// What a reply says: the destination that it answers for, and the number, the hop count and the metric of the path there.
#[derive(Clone, Copy)]
struct Said {
    destination: Address,
    number: SequenceNumber,
    hops: HopCount,
    metric: Metric,
}

// An intermediate reply says what the row says.
impl From<Row> for Said {
    ghost from_gives = { λ r s. s ≡ of_row r };

    fn from(r: Row) -> Said {
        Said {
            destination: r.destination,
            number: r.number,
            hops: r.hops,
            metric: r.metric,
        }
    }
}

impl Said {
    // A reply of a point for itself says the own address and number, hop count 0 and metric 0.
    fn of_oneself(own: Address, number: SequenceNumber) -> Said
        ensures { result ≡ of_oneself own number }
    {
        Said {
            destination: own,
            number,
            hops: HopCount(0),
            metric: Metric(0),
        }
    }
}

// The reply to a destination: for the point itself, with its own number after the reply, or for another by the row that answers.
#[derive(Clone, Copy)]
enum Reply {
    ForItself(SequenceNumber),
    ByRow(Row),
}

// Returns the requested number if it is not marked unknown and newer than the own number, otherwise the own number.
fn newer_of(own: SequenceNumber, q: Target) -> SequenceNumber
    ensures { result ≡ newer_of own q }
{
    let unknown = flags::is_number_unknown(q);
    if !unknown & q.number.is_newer(own) {
        return q.number;
    }
    own
}

// Returns the number of a point's reply for itself, where `number` is the own number before the reply. The counters of the point
// advance as for a RANN, which takes no request ID.
#[tactic(auto, unfolding(counters::specs::Numbering::advanced_for))]
fn reply_number(head: Head, number: SequenceNumber) -> SequenceNumber
    ensures { result ≡ next_number number }
{
    let counters = OwnCounters {
        number,
        request: head.request,
    };
    own::numbered(counters, false).number
}

// A received RREQ: the table after steps 1 and 2, and the arrival and the path of the RREQ.
#[derive(Clone, Copy)]
struct Request<'a> {
    table: &'a [u8],
    arrival: Arrival,
    path: PathInfo,
    ghost sized: { Sized table.now },
}

impl<'a> Request<'a> {
    // Returns the reply to another destination, if a row answers for it.
    fn reply_for_another(&self, q: Target) -> Option<Reply>
        ensures { result ≡ by_row (answering_row self.now.table.now self.now.arrival.clock q) }
    {
        let r = answering::answering_row(self.table, self.arrival.clock, q)?;
        Some(Reply::ByRow(r))
    }

    // Returns the reply to one destination: the own address, another address, or all ones. To all ones there is a reply only if
    // the RREQ has 'reply wanted'. `number` is the own number so far.
    fn reply_for(&self, number: SequenceNumber, q: Target) -> Option<Reply>
        ensures { RepliesTo self.now.table.now self.now.arrival self.now.path number q result }
    {
        let head = row::read_head(self.table);
        if q.address == head.own {
            return Some(Reply::ForItself(reply_number(head, newer_of(number, q))));
        }
        if q.address != Address(list::ALL_ONES) {
            return self.reply_for_another(q);
        }
        if !flags::is_reply_wanted(self.path) {
            return None;
        }
        Some(Reply::ForItself(reply_number(head, number)))
    }

    // Returns the fields of a reply: flags 0 and TTL 31, with lifetime, source and source number from the request.
    fn reply_fields(&self, said: Said) -> RrepFields
        ensures { result ≡ reply_fields self.now.path said.destination said.number said.hops said.metric }
    {
        RrepFields {
            path: PathInfo {
                flags: 0,
                hops: said.hops,
                ttl: calls::INITIAL_TTL,
                subject: said.destination,
                number: said.number,
                lifetime: self.path.lifetime,
                metric: said.metric,
            },
            source: NumberedAddress {
                address: self.path.subject,
                number: self.path.number,
            },
        }
    }

    // Writes a reply to the transmitter, without dependents, after those before. `number` is the own number after the reply.
    fn write_reply(
        &self,
        output: &mut [u8],
        said: Said,
        number: SequenceNumber,
        before: Replied,
    ) -> Replied
        requires place_in_bounds { before.place + 40 ≤ length output.old }
        requires frames_bound { before.frames < 20 }
        ensures value { result ≡ record { number = number; frames = before.frames + 1; place = before.place + 40 } }
        ensures output_after { output.new
            ≡ overwrite output.old before.place
            (frame_octets (reply_saying self.now.arrival self.now.path said ∷ [])) }
    {
        let fields = self.reply_fields(said);
        let place = writing::start_rrep(output, before.place, self.arrival.transmitter, fields, 0);
        Replied {
            number,
            frames: before.frames + 1,
            place,
        }
    }

    // Writes the reply to one destination, if there is a reply. The reply is decided first and written then, so that
    // `write_reply` alone writes.
    fn reply_to(&self, output: &mut [u8], q: Target, before: Replied) -> Replied
        requires place_in_bounds { before.place + 40 ≤ length output.old }
        requires frames_bound { before.frames < 20 }
        ensures value { result
            ≡ replied_after before (answered self.now.table.now self.now.arrival self.now.path before.number q) }
        ensures output_after { output.new
            ≡ overwrite output.old before.place
            (frame_octets (answered self.now.table.now self.now.arrival self.now.path before.number q).replies) }
    {
        let Some(reply) = self.reply_for(before.number, q) else {
            return before;
        };
        match reply {
            Reply::ForItself(next) => {
                let own = row::read_head(self.table).own;
                self.write_reply(output, Said::of_oneself(own, next), next, before)
            }
            Reply::ByRow(r) => self.write_reply(output, Said::from(r), before.number, before),
        }
    }

    // Replies to the destinations in `part`, starting at place `at`. `number` is the own number before the first reply.
    fn reply_to_all(
        &self,
        output: &mut [u8],
        at: usize,
        number: SequenceNumber,
        part: &[u8],
    ) -> Replied
        requires part_of { PartOf Kind.Rreq part.now }
        requires at_in_bounds { at + 800 ≤ length output.old }
        ensures value { result
            ≡ replied_from at
            (all_answered self.now.table.now self.now.arrival self.now.path number (targets_in part.now)) }
        ensures output_after { output.new
            ≡ overwrite output.old at
            (frame_octets (all_answered self.now.table.now self.now.arrival self.now.path number
            (targets_in part.now)).replies) }
    {
        let n = part.len() / list::TARGET;
        let mut replied = Replied {
            number,
            frames: 0,
            place: at,
        };
        for i in 0..n {
            replied = self.reply_to(output, list::target_at(part, i), replied);
        }
        replied
    }
}

// Writes the replies to the destinations in `part`, starting at place `at`. `number` is the own number before the first reply.
pub fn write_replies(
    output: &mut [u8],
    at: usize,
    table: &[u8],
    a: Arrival,
    p: PathInfo,
    number: SequenceNumber,
    part: &[u8],
) -> Replied
    requires sized { Sized table.now }
    requires part_of { PartOf Kind.Rreq part.now }
    requires at_in_bounds { at + 800 ≤ length output.old }
    ensures value { result ≡ replied_from at (all_answered table.now a p number (targets_in part.now)) }
    ensures output_after { output.new
        ≡ overwrite output.old at
        (frame_octets (all_answered table.now a p number (targets_in part.now)).replies) }
{
    let request = Request {
        table,
        arrival: a,
        path: p,
    };
    request.reply_to_all(output, at, number, part)
}

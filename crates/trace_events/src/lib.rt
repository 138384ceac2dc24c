// An event of a trace, by its call; and the registry records kept for an open.
#![tactic(auto)]

ghost use Rattle.std.specs.Prelude.{◌≡◌};
ghost use Rattle.rules.specs.Opening.{opening};
ghost use Rattle.rules.specs.Summary.{empty_summary};
ghost use Rattle.trace_items.specs.Reading.{event_meant};
ghost use Rattle.trace_events.specs.Events.{stored_by, lent_by, Same, registry_of, answer_undecided, answer_opened, answer_swept, OfEvent, keeping};

use rules::{Decision, Received, Swept, Table};
use trace_items::Event;

// What is lent to an event: the summary, the store, and the area for the records that it makes.
#[derive(Drop)]
pub struct Areas<'a> {
    pub summary: &'a mut [u64; rules::SUMMARY],
    pub store: &'a mut [u8],
    pub report: &'a mut [u8],
}

// What a replay hands on beside the areas. Of the registry as read nine records are kept: with nine an open is refused as with more.
// As it was: the octets stand beside their length: memory is fixed, and keeping of specs/Events speaks of both.
#[derive(Clone, Copy)]
pub struct Replay {
    pub registry: [u8; 27],
    pub length: usize,
    pub table: Table,
    pub begun: bool,
}

impl Replay {
    // The registry records as kept.
    fn records(&self) -> &[u8]
        ensures { result.now ≡ registry_of self.now }
    {
        octets::part(&self.registry, 0, self.length)
    }

    // An opening makes no record. Every open uses the whole registry as read.
    fn open(&self, lent: &mut Areas<'_>, timer: u32, clock: u32) -> Received
        ensures answered { result ≡ answer_opened (opening (registry_of self.now) timer clock) }
        ensures summed { lent.new.summary.now ≡ empty_summary }
        ensures stored { lent.new.store.now ≡ lent.old.store.now }
        ensures reported { lent.new.report.now ≡ lent.old.report.now }
        ensures same { Same lent.old lent.new }
    {
        let r = opening::opening(lent.summary, self.records(), timer, clock);
        undecided(r.table, r.refusal, 0)
    }

    // An event, by its call. A segment's octets are those of the body that count.
    pub fn happen(&self, lent: &mut Areas<'_>, e: Event, body: &[u8]) -> Received
        ensures of_event { OfEvent self.now (stored_by lent.old) (lent_by lent.old) (event_meant e body.now) result (stored_by lent.new) (lent_by lent.new) }
        ensures same { Same lent.old lent.new }
    {
        match e {
            Event::Open { timer, clock } => self.open(lent, timer, clock),
            Event::Segment {
                time,
                association,
                length,
            } => receiver::arrival(
                self.table,
                lent.summary,
                lent.store,
                lent.report,
                time,
                association,
                octets::part(body, 7, usize::from(length)),
            ),
            Event::Clock(time) => swept(receiver::clock(
                self.table,
                lent.summary,
                lent.report,
                time,
            )),
            Event::Release(association) => swept(receiver::release(
                self.table,
                lent.summary,
                lent.report,
                association,
            )),
        }
    }

    // A registry record is kept, unless nine are.
    pub fn kept(&self, kind: u8, body: &[u8]) -> Replay
        ensures { result ≡ keeping self.now kind body.now }
    {
        let mut next = *self;
        if 24 < self.length {
            return next;
        }
        next.registry[self.length] = kind;
        octets::put_at(&mut next.registry, self.length + 1, body);
        next.length += 3;
        next
    }
}

// What an event answers has the shape of a segment's answer; this of a call that decides nothing.
fn undecided(table: Table, refusal: u8, records: u8) -> Received
    ensures { result ≡ answer_undecided table refusal records }
{
    Received {
        table,
        decision: Decision::Refused,
        position: rules::NOWHERE,
        refusal,
        records,
        timeouts: 0,
    }
}

// The answer of a sweep.
fn swept(s: Swept) -> Received
    ensures { result ≡ answer_swept s }
{
    undecided(s.table, s.refusal, s.records)
}

// A record of a trace, read to its item: the length of its body by its kind, and what the body says.
#![tactic(auto)]

ghost use Rattle.std.specs.Prelude.{◌≡◌, ◌+◌, ◌≤◌, length, take, drop};
ghost use Rattle.octets.specs.Number.{number};
ghost use Rattle.rules.specs.Trace.{body_length, item_of};
ghost use Rattle.trace_items.specs.Reading.{body_of, item_meant, kind_for};

use rules::Decision;

// What prints a line. A segment's octets stay in the record's body.
#[derive(Clone, Copy)]
pub enum Event {
    Open {
        timer: u32,
        clock: u32,
    },
    Segment {
        time: u32,
        association: u16,
        length: u8,
    },
    Clock(u32),
    Release(u16),
}

// An event that happened: its kind, and its answer but for the table. A call that decides nothing has the decision of a refusal.
// As it was: kind, position and refusal are numbers, and so is a record's kind: happening_of, line_for and item_of of the specs speak of them as numbers.
#[derive(Clone, Copy)]
pub struct Happening {
    pub decision: Decision,
    pub position: u16,
    pub kind: u8,
    pub refusal: u8,
    pub records: u8,
    pub timeouts: u8,
}

// The length of a record's body, by its kind, where the kind is known.
// As it was: a record's kind is an octet of the trace: body_length of rules asks it.
pub fn body_length(kind: u8) -> Option<usize>
    ensures { result ≡ body_of kind }
{
    match kind {
        1 | 2 | 35 => Some(2),
        32 => Some(8),
        33 => Some(262),
        34 => Some(4),
        _ => None,
    }
}

// So many octets of a body, from an index on.
// As it was: a body and a place in it, as the clause has them.
fn octets_at<const N: usize>(body: &[u8], at: usize) -> [u8; N]
    requires { at + N ≤ length body.now }
    ensures { result ≡ take N (drop at body.now) }
{
    let mut octets = [0; N];
    octets.copy_from_slice(&body[at..at + N]);
    octets
}

// A whole record's event, by its kind; none where it is a registry record.
// As it was: a record's kind is an octet of the trace: item_of of rules asks it.
#[tactic(auto, using(crate::proofs::Reading::pair_at, crate::proofs::Reading::word_at))]
pub fn item_of(kind: u8, body: &[u8]) -> Option<Event>
    requires { length body.now ≡ body_length kind }
    ensures { item_meant result kind body.now ≡ item_of kind body.now }
{
    match kind {
        32 => Some(Event::Open {
            timer: u32::from_be_bytes(octets_at(body, 0)),
            clock: u32::from_be_bytes(octets_at(body, 4)),
        }),
        33 => Some(Event::Segment {
            time: u32::from_be_bytes(octets_at(body, 0)),
            association: u16::from_be_bytes(octets_at(body, 4)),
            length: body[6],
        }),
        34 => Some(Event::Clock(u32::from_be_bytes(octets_at(body, 0)))),
        35 => Some(Event::Release(u16::from_be_bytes(octets_at(body, 0)))),
        // 1 and 2 are left: a kind that is not known has no length, so that it never comes here
        _ => None,
    }
}

// The kind of an event's record.
impl From<Event> for u8 {
    ghost from_gives = { λ e n. n ≡ kind_for e };

    // As it was: the number is the octet that the record begins with (kind_for).
    fn from(e: Event) -> u8 {
        match e {
            Event::Open { .. } => 32,
            Event::Segment { .. } => 33,
            Event::Clock(_) => 34,
            Event::Release(_) => 35,
        }
    }
}

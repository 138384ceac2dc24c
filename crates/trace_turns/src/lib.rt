// Traces, record by record: what the record at the front of an input does. What is printed of it is not here.
#![tactic(auto)]

ghost use Rattle.std.specs.Prelude.{◌≡◌, true, false, ◌+◌, ◌≤◌, length, replicate};
ghost use Rattle.rules.specs.Opening.{unopened};
ghost use Rattle.rules.specs.Trace.{is_known, body_length, item_of};
ghost use Rattle.trace_events.specs.Events.{stored_by, lent_by, Same};
ghost use Rattle.trace_items.specs.Reading.{event_meant};
ghost use Rattle.trace_turns.specs.Turns.{OfWalk, Fits, still, registering, register_of, happening, at_item, walked};

use trace_events::{Areas, Replay};
use trace_items::{Event, Happening};

// What the front of an input is met as: no whole record yet, what stops the trace, a registry record, an event.
#[derive(Clone, Copy)]
pub enum Met {
    Waits,
    Stops,
    Registers,
    Happens(Happening),
}

// What was done with the front of an input, of which so many octets are used.
#[derive(Clone, Copy)]
pub struct Walk {
    pub replay: Replay,
    pub met: Met,
    pub used: usize,
}

// Nothing is done and nothing is used.
fn stays(held: &Replay, met: Met) -> Walk
    ensures { result ≡ still held.now met }
{
    Walk {
        replay: *held,
        met,
        used: 0,
    }
}

// A registry record: it stops after the first open.
fn registers(held: &Replay, kind: u8, body: &[u8]) -> Walk
    ensures value { result ≡ register_of held.now kind body.now }
    ensures used_bound { result.used ≤ 3 }
{
    if held.begun {
        return stays(held, Met::Stops);
    }
    Walk {
        replay: held.kept(kind, body),
        met: Met::Registers,
        used: 3,
    }
}

// An event: its step.
// As it was: a kind is the octet of the trace's record (happening).
fn happens(held: Replay, lent: &mut Areas<'_>, e: Event, body: &[u8]) -> Walk
    requires { length body.now ≤ 262 }
    ensures of_walk { OfWalk (happening held (stored_by lent.old) (lent_by lent.old) (event_meant e body.now) (1 + length body.now)) result (stored_by lent.new) (lent_by lent.new) }
    ensures fits { Fits result.met lent.new.report.now }
    ensures same { Same lent.old lent.new }
{
    let kind = u8::from(e);
    let a = held.happen(lent, e, body);
    Walk {
        replay: Replay {
            table: a.table,
            begun: held.begun | (kind == 32),
            ..held
        },
        met: Met::Happens(Happening {
            decision: a.decision,
            position: a.position,
            kind,
            refusal: a.refusal,
            records: a.records,
            timeouts: a.timeouts,
        }),
        used: 1 + body.len(),
    }
}

// A record of a known kind.
fn known(held: &Replay, lent: &mut Areas<'_>, kind: u8, body: &[u8]) -> Walk
    requires { (is_known kind ≡ true) × (length body.now ≡ body_length kind) }
    ensures of_walk { OfWalk (at_item held.now (stored_by lent.old) (lent_by lent.old) (item_of kind body.now) (1 + body_length kind)) result (stored_by lent.new) (lent_by lent.new) }
    ensures used_bound { (result.used ≤ 1 + body_length kind) × Fits result.met lent.new.report.now }
    ensures same { Same lent.old lent.new }
{
    match trace_items::item_of(kind, body) {
        None => registers(held, kind, body),
        Some(e) => happens(*held, lent, e, body),
    }
}

// The record at the front of an input.
pub fn turn(held: &Replay, lent: &mut Areas<'_>, input: &[u8]) -> Walk
    ensures of_walk { OfWalk (walked held.now (stored_by lent.old) (lent_by lent.old) input.now) result (stored_by lent.new) (lent_by lent.new) }
    ensures used_in_bounds { (result.used ≤ length input.now) × Fits result.met lent.new.report.now }
    ensures same { Same lent.old lent.new }
{
    let Some((&kind, rest)) = input.split_first() else {
        return stays(held, Met::Waits);
    };
    let Some(n) = trace_items::body_length(kind) else {
        return stays(held, Met::Stops);
    };
    if rest.len() < n {
        return stays(held, Met::Waits);
    }
    known(held, lent, kind, &rest[..n])
}

// A replay at its beginning: an event before open meets the unopened table.
pub fn beginning() -> Replay
    ensures { result ≡ record { registry = replicate 27 0; length = 0; table = unopened; begun = false } }
{
    let mut none = [0; rules::SUMMARY];
    let r = opening::opening(&mut none, b"", 0, 0);
    Replay {
        registry: [0; 27],
        length: 0,
        table: r.table,
        begun: false,
    }
}

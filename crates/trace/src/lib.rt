// Traces watched: what is printed of them, record by record and a block of records at a time.
#![tactic(auto)]

ghost use Rattle.std.specs.Prelude.{◌≡◌, ℕ, ◌*◌, ◌≤◌, true, List, [], length};
ghost use Rattle.octets.specs.Splice.{Wrote};
ghost use Rattle.rules.specs.Records.{record_length};
ghost use Rattle.rules.specs.Arrival.{records_most};
ghost use Rattle.rules.specs.Calls.{lending};
ghost use Rattle.trace_events.specs.Events.{stored_of, stored_by, lent_by, Same};
ghost use Rattle.trace_turns.specs.Turns.{Fits};
ghost use Rattle.rules.specs.Lines.{counted};
ghost use Rattle.trace_lines.specs.Writers.{Writes};
ghost use Rattle.trace.specs.Watching as watching;
ghost use Rattle.trace.specs.Watching.{observer_of, ended_by, opens_next, first_if, event_by, told_by, Begins, count_by, stops_at, OfTurn, turned, runs, end_of};

use rules::Place;
use trace_events::{Areas, Replay};
use trace_items::Happening;
use trace_lines::Writer;
use trace_turns::Met;

// What a turn prints is no longer than this: so much room there has to be for one more.
const TOLD: usize = 16384;

// Who watches, and so what is printed of a trace.
pub trait Watcher {
    // By what name the rules know its observer.
    ghost which: { watching.Watcher };

    // The end, at a table with these places, and a summary.
    fn tell_end(
        &self,
        places: &[Place; 16],
        m: &[u64; rules::SUMMARY],
        stops: bool,
        w: &mut Writer<'_>,
    )
        requires { w.old.at ≡ 0 }
        ensures wrote { Writes w.old (ended_by which places.now m.now «stops») w.new }
        ensures upper_bound { w.new.at ≤ 16384 };

    // What is printed before the call of the record at the front of an input.
    fn tell_first(&self, m: &[u64; rules::SUMMARY], input: &[u8], w: &mut Writer<'_>)
        requires { w.old.at ≡ 0 }
        ensures wrote { Writes w.old (first_if which (opens_next input.now) m.now) w.new }
        ensures begins { Begins which w.new.at };

    // An event that met a table with these places.
    // As it was: kinds as numbers: event_by of specs asks the octet of a happening.
    fn tell_event(
        &self,
        events: u64,
        places: &[Place; 16],
        h: &Happening,
        report: &[u8],
        w: &mut Writer<'_>,
    )
        requires { (h.now.records ≤ records_most) × ((record_length * h.now.records ≤ length report.now) × Begins which w.old.at) }
        ensures wrote { Writes w.old (event_by which events places.now h.now report.now) w.new }
        ensures upper_bound { w.new.at ≤ 16384 };
}

// The program replay prints a line for each event.
#[derive(Clone, Copy)]
pub struct Lines;

impl Watcher for Lines {
    ghost which = { watching.Lines };

    fn tell_end(
        &self,
        _places: &[Place; 16],
        _m: &[u64; rules::SUMMARY],
        stops: bool,
        w: &mut Writer<'_>,
    ) {
        w.put_end(stops)
    }

    fn tell_first(&self, _m: &[u64; rules::SUMMARY], _input: &[u8], _w: &mut Writer<'_>) {}

    fn tell_event(
        &self,
        _events: u64,
        _places: &[Place; 16],
        h: &Happening,
        report: &[u8],
        w: &mut Writer<'_>,
    ) {
        w.put_line(h, report)
    }
}

// records prints every record too.
#[derive(Clone, Copy)]
pub struct Records;

impl Watcher for Records {
    ghost which = { watching.Records };

    fn tell_end(
        &self,
        places: &[Place; 16],
        _m: &[u64; rules::SUMMARY],
        stops: bool,
        w: &mut Writer<'_>,
    ) {
        trace_records::put_end(w, places, stops)
    }

    fn tell_first(&self, _m: &[u64; rules::SUMMARY], _input: &[u8], _w: &mut Writer<'_>) {}

    fn tell_event(
        &self,
        events: u64,
        places: &[Place; 16],
        h: &Happening,
        report: &[u8],
        w: &mut Writer<'_>,
    ) {
        trace_records::put_event(w, next_event(events), h, report, places)
    }
}

// totals prints what each opening's rows came to: an opening empties them, so that they are printed before its call.
#[derive(Clone, Copy)]
pub struct Totals;

impl Watcher for Totals {
    ghost which = { watching.Totals };

    fn tell_end(
        &self,
        _places: &[Place; 16],
        m: &[u64; rules::SUMMARY],
        stops: bool,
        w: &mut Writer<'_>,
    ) {
        trace_totals::put_end(w, m, stops)
    }

    fn tell_first(&self, m: &[u64; rules::SUMMARY], input: &[u8], w: &mut Writer<'_>) {
        if opens_next(input) {
            trace_totals::put_rows(w, m);
        }
    }

    fn tell_event(
        &self,
        events: u64,
        _places: &[Place; 16],
        h: &Happening,
        _report: &[u8],
        w: &mut Writer<'_>,
    ) {
        if h.kind == 32 {
            trace_totals::put_heading(w, next_event(events), h.refusal);
        }
    }
}

// The number of the next event.
fn next_event(events: u64) -> u64
    ensures { result ≡ counted events }
{
    events.wrapping_add(1)
}

// Whether a whole opening is at the front of an input.
fn opens_next(input: &[u8]) -> bool
    ensures { result ≡ opens_next input.now }
{
    if input.len() < 9 {
        return false;
    }
    input[0] == 32
}

// What was done with the front of an input: so many of its octets are used, so many are written, and the trace has stopped or goes on. events is the number of the last event.
#[derive(Clone, Copy)]
pub struct Progress {
    pub replay: Replay,
    pub events: u64,
    pub used: usize,
    pub written: usize,
    pub ended: bool,
}

// What the front of an input was met as, at a table with these places, behind what was printed before.
fn tell<W: Watcher>(
    who: &W,
    events: u64,
    places: &[Place; 16],
    met: &Met,
    lent: &Areas<'_>,
    w: &mut Writer<'_>,
)
    requires { Fits met.now lent.now.report.now × (Begins W.which w.old.at × (stops_at met.now ≡ true → w.old.at ≡ 0)) }
    ensures wrote { Writes w.old (told_by W.which events places.now lent.now.summary.now met.now lent.now.report.now) w.new }
    ensures upper_bound { w.new.at ≤ 16384 }
{
    match met {
        Met::Waits => {}
        Met::Stops => who.tell_end(places, lent.summary, true, w),
        Met::Registers => {}
        Met::Happens(h) => who.tell_event(events, places, h, lent.report, w),
    }
}

// The number of the last event, after what was met.
fn count(events: u64, met: &Met) -> u64
    ensures { result ≡ count_by events met.now }
{
    if matches!(met, Met::Happens(_)) {
        next_event(events)
    } else {
        events
    }
}

// Whether the trace stops.
fn stops(met: &Met) -> bool
    ensures { result ≡ stops_at met.now }
{
    matches!(met, Met::Stops)
}

// The record at the front of an input, and what is printed of it.
fn watch<W: Watcher>(
    who: &W,
    events: u64,
    held: &Replay,
    lent: &mut Areas<'_>,
    input: &[u8],
    w: &mut Writer<'_>,
) -> Progress
    requires { w.old.at ≡ 0 }
    ensures of_turn { OfTurn (turned (observer_of W.which) events held.now (stored_by lent.old) (lent_by lent.old) input.now) w.old.area.now result (stored_by lent.new) (lent_by lent.new) w.new.area.now }
    ensures used_in_bounds { (result.used ≤ length input.now) × (result.written ≤ 16384) }
    ensures same { Same lent.old lent.new }
    ensures same_area { w.new.area.ghost_name ≡ w.old.area.ghost_name }
{
    who.tell_first(lent.summary, input, w);
    let t = trace_turns::turn(held, lent, input);
    tell(who, events, &held.table.places, &t.met, lent, w);
    Progress {
        replay: t.replay,
        events: count(events, &t.met),
        used: t.used,
        written: w.at,
        ended: stops(&t.met),
    }
}

// The same, to the front of out.
fn step<W: Watcher>(
    who: &W,
    events: u64,
    held: &Replay,
    lent: &mut Areas<'_>,
    input: &[u8],
    out: &mut [u8],
) -> Progress
    ensures of_turn { OfTurn (turned (observer_of W.which) events held.now (stored_by lent.old) (lent_by lent.old) input.now) out.old result (stored_by lent.new) (lent_by lent.new) out.new }
    ensures used_in_bounds { (result.used ≤ length input.now) × (result.written ≤ 16384) }
    ensures same { Same lent.old lent.new }
{
    let mut w = Writer { area: out, at: 0 };
    watch(who, events, held, lent, input, &mut w)
}

// The records at the front of an input, one after the other, as long as out has room for what is printed of one.
// As it was: no chain or for, since each turn says how far the next begins.
fn run<W: Watcher>(
    who: &W,
    first: u64,
    held: Replay,
    lent: &mut Areas<'_>,
    input: &[u8],
    out: &mut [u8],
) -> Progress
    ensures of_turn { OfTurn (runs (observer_of W.which) (length input.now) (length out.old) first held (stored_by lent.old) (lent_by lent.old) input.now) out.old result (stored_by lent.new) (lent_by lent.new) out.new }
    ensures used_in_bounds { (result.used ≤ length input.now) × (result.written ≤ length out.old) }
    ensures same { Same lent.old lent.new }
{
    let mut replay = held;
    let mut events = first;
    let mut used = 0;
    let mut written = 0;
    while TOLD <= out.len() - written {
        let t = step(
            who,
            events,
            &replay,
            lent,
            &input[used..],
            &mut out[written..],
        );
        replay = t.replay;
        events = t.events;
        used += t.used;
        written += t.written;
        let over = t.ended | (t.used == 0);
        if over {
            return Progress {
                replay,
                events,
                used,
                written,
                ended: t.ended,
            };
        }
    }
    Progress {
        replay,
        events,
        used,
        written,
        ended: false,
    }
}

// A block of records: those at the front of an input, as many as out has room for.
pub fn block<W: Watcher>(
    who: &W,
    first: u64,
    held: Replay,
    m: &mut [u64; rules::SUMMARY],
    store: &mut [u8],
    report: &mut [u8],
    input: &[u8],
    out: &mut [u8],
) -> Progress
    ensures of_turn { OfTurn (runs (observer_of W.which) (length input.now) (length out.old) first held (stored_of m.old store.old) (lending report.old []) input.now) out.old result (stored_of m.new store.new) (lending report.new []) out.new }
    ensures used_in_bounds { (result.used ≤ length input.now) × (result.written ≤ length out.old) }
{
    let mut lent = Areas {
        summary: m,
        store,
        report,
    };
    run(who, first, held, &mut lent, input, out)
}

// Where the input has ended: what is left of it is a cut record, and stops.
pub fn ending<W: Watcher>(
    who: &W,
    held: Replay,
    m: &[u64; rules::SUMMARY],
    left: usize,
    out: &mut [u8],
) -> usize
    ensures by_index { (events : ℕ) (store : List ℕ) → Wrote out.old 0 (end_of (observer_of W.which) events held (stored_of m.now store) left) out.new result }
    ensures upper_bound { result ≤ 16384 }
{
    let mut w = Writer { area: out, at: 0 };
    who.tell_end(&held.table.places, m, left != 0, &mut w);
    w.at
}

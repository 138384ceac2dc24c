// The course of a loopback: segments one after the other, each cut by the sender and handed to the receiver.
#![tactic(auto)]

ghost use Rattle.std.specs.Prelude.{◌≡◌, [], take, ◌-◌, ◌≤◌};
ghost use Rattle.rules.specs.Arrival.{arrival};
ghost use Rattle.rules.specs.Calls.{state_of, lending};
ghost use Rattle.demands.specs.Demand2.{numbered};
ghost use Rattle.loop_laps.specs.Laps.{asked, standing, lap, laps, lap_of, OfLap, OfReceipt};

use rules::{Decision, Request, Table};

// number is 0, or that of the first condition that fails. The last segment is the first length octets of the area; with it, the decision and the store, the receiver's delivery
// is the data.
// As it was: number is a number, 0 for none, as the definitions of loopback (looped_of, OfLoopback) give the answer.
#[derive(Clone, Copy)]
pub struct Looped {
    pub table: Table,
    pub decision: Decision,
    pub length: u16,
    pub number: u8,
}

// What stays the same from segment to segment: what is asked for, and what is sent.
#[derive(Clone, Copy)]
pub struct Course<'a> {
    pub table: Table,
    pub request: Request,
    pub association: u16,
    pub origin: &'a [u8],
    pub destination: &'a [u8],
    pub whole: &'a [u8],
}

// The request for segment k.
pub fn for_segment(q: Request, k: usize) -> Request
    ensures { result ≡ numbered q k }
{
    Request { number: k, ..q }
}

// The first n octets of the area are received, at the table's own time.
// As it was: table, summary, store and report area go one by one, as the public calls take them from C.
pub fn receive(
    t: Table,
    association: u16,
    n: u16,
    area: &[u8],
    m: &mut [u64; rules::SUMMARY],
    store: &mut [u8],
    report: &mut [u8],
) -> Looped
    ensures { OfReceipt (arrival t m.old store.old report.old t.clock association (take n area.now)) n result m.new store.new (lending report.new []) }
{
    let r = receiver::arrival(
        t,
        m,
        store,
        report,
        t.clock,
        association,
        octets::part(area, 0, usize::from(n)),
    );
    Looped {
        table: r.table,
        decision: r.decision,
        length: n,
        number: 0,
    }
}

// Segment k is cut, and received.
// As it was: table, summary and areas go one by one, as the public calls take them from C.
fn one(
    c: &Course,
    k: u8,
    t: Table,
    area: &mut [u8],
    m: &mut [u64; rules::SUMMARY],
    store: &mut [u8],
    report: &mut [u8],
) -> Looped
    ensures { OfLap (lap (asked c.now.table c.now.request c.now.association c.now.origin.now c.now.destination.now c.now.whole.now) k (standing (state_of t m.old store.old) (lending report.old area.old))) result m.new store.new (lending report.new area.new) }
{
    let q = for_segment(c.request, usize::from(k));
    let s = sender::sending(c.table, q, c.origin, c.destination, c.whole, area);
    receive(t, c.association, s.length, area, m, store, report)
}

// The segments after the first.
// As it was: as one.
pub fn others(
    c: &Course,
    count: u8,
    first: Looped,
    area: &mut [u8],
    m: &mut [u64; rules::SUMMARY],
    store: &mut [u8],
    report: &mut [u8],
) -> Looped
    requires { (1 ≤ count) × (first.number ≡ 0) }
    ensures { OfLap (laps (count - 1) 1 (asked c.now.table c.now.request c.now.association c.now.origin.now c.now.destination.now c.now.whole.now) (lap_of first m.old store.old (lending report.old area.old))) result m.new store.new (lending report.new area.new) }
{
    let mut l = first;
    for k in 1..count {
        l = one(c, k, l.table, area, m, store, report);
    }
    l
}

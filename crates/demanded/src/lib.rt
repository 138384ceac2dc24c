// What is demanded of the calls, as contracts. Each function here is one call, of this project's own or of C's, with the demands' predicates as what it ensures: they hold at any
// state, and for any history that matches it.
#![tactic(auto)]

ghost use Rattle.rules.specs.Promises.{OfDelivery};
ghost use Rattle.demanded.specs.Demanded.{DemandedOpening, DemandedArrival, DemandedClock, DemandedRelease, DemandedSending, DemandedC, OfBoth};

use host::CReceived;
use host_numbers::CPart;
use rules::{Decision, Opened, Received, Request, Sent, Swept, Table};

// An arrival's answer for C, and the part that the host takes with it.
#[derive(Clone, Copy)]
pub struct Handed {
    pub received: CReceived,
    pub part: CPart,
}

#[derive(Clone, Copy)]
pub struct Both {
    pub opened: Opened,
    pub swept: Swept,
}

// THE PUBLIC CALLS

// As it was: the arguments are those of the call that it is about, and each call has its own function, since that is what is claimed.
pub fn opening(m: &mut [u64; rules::SUMMARY], registry: &[u8], timer: u32, clock: u32) -> Opened
    ensures { DemandedOpening registry.now timer clock result m.new }
{
    opening::opening(m, registry, timer, clock)
}

// As it was: the arguments are those of the call that it is about, and each call has its own function, since that is what is claimed.
pub fn arrival(
    t: Table,
    m: &mut [u64; rules::SUMMARY],
    store: &mut [u8],
    report: &mut [u8],
    time: u32,
    association: u16,
    s: &[u8],
) -> Received
    ensures { DemandedArrival t m.old store.old report.old time association s.now result m.new store.new report.new }
{
    receiver::arrival(t, m, store, report, time, association, s)
}

pub fn delivery<'a>(decision: Decision, s: &'a [u8], store: &'a [u8]) -> &'a [u8]
    ensures { OfDelivery decision s.now store.now result.now }
{
    receiver::delivery(decision, s, store)
}

// As it was: the arguments are those of the call that it is about, and each call has its own function, since that is what is claimed.
pub fn clock(t: Table, m: &mut [u64; rules::SUMMARY], report: &mut [u8], time: u32) -> Swept
    ensures { DemandedClock t m.old report.old time result m.new report.new }
{
    receiver::clock(t, m, report, time)
}

// As it was: the arguments are those of the call that it is about, and each call has its own function, since that is what is claimed.
pub fn release(
    t: Table,
    m: &mut [u64; rules::SUMMARY],
    report: &mut [u8],
    association: u16,
) -> Swept
    ensures { DemandedRelease t m.old report.old association result m.new report.new }
{
    receiver::release(t, m, report, association)
}

// As it was: the arguments are those of the call that it is about, and each call has its own function, since that is what is claimed.
pub fn sending(
    t: Table,
    q: Request,
    origin: &[u8],
    destination: &[u8],
    whole: &[u8],
    area: &mut [u8],
) -> Sent
    ensures { DemandedSending t q origin.now destination.now whole.now area.old result area.new }
{
    sender::sending(t, q, origin, destination, whole, area)
}

// THE CALLS FOR C

// As it was: the arguments are those of the call that it is about, and each call has its own function, since that is what is claimed.
pub fn c_opening(m: &mut [u64; rules::SUMMARY], registry: &[u8], timer: u32, clock: u32) -> Opened
    ensures { DemandedOpening registry.now timer clock result m.new }
{
    host::egrynnol_4_opening(m, registry, timer, clock)
}

// An arrival, and the delivery asked for with its answer.
// As it was: the arguments are those of the call that it is about, and each call has its own function, since that is what is claimed.
pub fn c_arrival(
    t: Table,
    m: &mut [u64; rules::SUMMARY],
    store: &mut [u8],
    report: &mut [u8],
    time: u32,
    association: u16,
    s: &[u8],
) -> Handed
    ensures { DemandedC t m.old store.old report.old time association s.now result m.new store.new report.new }
{
    let received = host::egrynnol_4_arrival(t, m, store, report, time, association, s);
    let decision = received.decision;
    let part = host::egrynnol_4_delivery(decision, s, store);
    Handed { received, part }
}

// As it was: the arguments are those of the call that it is about, and each call has its own function, since that is what is claimed.
pub fn c_clock(t: Table, m: &mut [u64; rules::SUMMARY], report: &mut [u8], time: u32) -> Swept
    ensures { DemandedClock t m.old report.old time result m.new report.new }
{
    host::egrynnol_4_clock(t, m, report, time)
}

// As it was: the arguments are those of the call that it is about, and each call has its own function, since that is what is claimed.
pub fn c_release(
    t: Table,
    m: &mut [u64; rules::SUMMARY],
    report: &mut [u8],
    association: u16,
) -> Swept
    ensures { DemandedRelease t m.old report.old association result m.new report.new }
{
    host::egrynnol_4_release(t, m, report, association)
}

// As it was: the arguments are those of the call that it is about, and each call has its own function, since that is what is claimed.
pub fn c_sending(
    t: Table,
    q: Request,
    origin: &[u8],
    destination: &[u8],
    whole: &[u8],
    area: &mut [u8],
) -> Sent
    ensures { DemandedSending t q origin.now destination.now whole.now area.old result area.new }
{
    host::egrynnol_4_sending(t, q, origin, destination, whole, area)
}

// THEY COMPOSE: what one leaves is what the next asks for, and nothing is asked of the history.
// As it was: the arguments are those of the call that it is about, and each call has its own function, since that is what is claimed.
pub fn opened_then_clock(
    m: &mut [u64; rules::SUMMARY],
    registry: &[u8],
    timer: u32,
    clock: u32,
    report: &mut [u8],
    time: u32,
) -> Both
    ensures { OfBoth registry.now timer clock report.old time result m.new report.new }
{
    let opened = c_opening(m, registry, timer, clock);
    let t = opened.table;
    let swept = c_clock(t, m, report, time);
    Both { opened, swept }
}

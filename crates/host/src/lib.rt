// The public calls for C. An enum and a returned part do not cross: they cross as numbers, see host_numbers.
// Their names have the number of the interface (include/egrynnol.h): a host of another one does not link.
// host_c exports them: a crate is a library or a static library, and not both.
#![tactic(auto)]

ghost use Rattle.rules.specs.Promises.{OfOpening, OfClock, OfRelease, OfSending};
ghost use Rattle.host.specs.Promises.{HostArrival, HostDelivery};

use host_numbers::{CDecision, CPart};
use rules::{Decision, Opened, Request, Sent, Swept, Table};

// As it was: the C interface has 0 for no refusal and 65535 for no position, and its calls take their parameters one by one.
#[repr(C)]
#[derive(Clone, Copy)]
pub struct CReceived {
    pub table: Table,
    pub decision: CDecision,
    pub refusal: u8,
    pub records: u8,
    pub position: u16,
    pub timeouts: u8,
}

// Opens a table from registry octets, T and the clock, and empties the summary.
// As it was: C hands its arguments over one by one, and the promise is that of the call beneath it.
pub fn egrynnol_4_opening(
    m: &mut [u64; rules::SUMMARY],
    registry: &[u8],
    timer: u32,
    clock: u32,
) -> Opened
    ensures { OfOpening registry.now timer clock result m.new }
{
    opening::opening(m, registry, timer, clock)
}

// A segment arrives at a time: the clock's work, and then the segment's.
// As it was: C hands its arguments over one by one, and the promise is that of the call beneath it.
pub fn egrynnol_4_arrival(
    t: Table,
    m: &mut [u64; rules::SUMMARY],
    store: &mut [u8],
    report: &mut [u8],
    time: u32,
    association: u16,
    s: &[u8],
) -> CReceived
    ensures { HostArrival t m.old store.old report.old time association s.now result m.new store.new report.new }
{
    let r = receiver::arrival(t, m, store, report, time, association, s);
    CReceived {
        table: r.table,
        decision: CDecision::from(r.decision),
        refusal: r.refusal,
        records: r.records,
        position: r.position,
        timeouts: r.timeouts,
    }
}

// The clock goes on.
// As it was: C hands its arguments over one by one, and the promise is that of the call beneath it.
pub fn egrynnol_4_clock(
    t: Table,
    m: &mut [u64; rules::SUMMARY],
    report: &mut [u8],
    time: u32,
) -> Swept
    ensures { OfClock t m.old report.old time result m.new report.new }
{
    receiver::clock(t, m, report, time)
}

// An association is released.
// As it was: C hands its arguments over one by one, and the promise is that of the call beneath it.
pub fn egrynnol_4_release(
    t: Table,
    m: &mut [u64; rules::SUMMARY],
    report: &mut [u8],
    association: u16,
) -> Swept
    ensures { OfRelease t m.old report.old association result m.new report.new }
{
    receiver::release(t, m, report, association)
}

// Where the octets are that a segment delivered.
pub fn egrynnol_4_delivery<'a>(decision: CDecision, s: &'a [u8], store: &'a [u8]) -> CPart
    ensures { HostDelivery decision s.now store.now result }
{
    let d = Decision::from(decision);
    let part = receiver::delivery(d, s, store);
    host_numbers::located_at(d, part.len())
}

// Writes one segment of the data.
// As it was: C hands its arguments over one by one, and the promise is that of the call beneath it.
pub fn egrynnol_4_sending(
    t: Table,
    q: Request,
    origin: &[u8],
    destination: &[u8],
    whole: &[u8],
    area: &mut [u8],
) -> Sent
    ensures { OfSending t q origin.now destination.now whole.now area.old result area.new }
{
    sender::sending(t, q, origin, destination, whole, area)
}

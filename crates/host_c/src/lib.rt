// The calls of host, exported to C under their own names, with the same clauses.
#![tactic(auto)]

ghost use Rattle.rules.specs.Promises.{OfOpening, OfClock, OfRelease, OfSending};
ghost use Rattle.host.specs.Promises.{HostArrival, HostDelivery};

use host::CReceived;
use host_numbers::{CDecision, CPart};
use rules::{Opened, Request, Sent, Swept, Table};

// Opens a table from registry octets, T and the clock, and empties the summary.
// As it was: the call of host once more, with its clause: a crate is a library or a static library, and C hands arguments over one by one.
#[unsafe(no_mangle)]
pub extern "C" fn egrynnol_4_opening(
    m: &mut [u64; rules::SUMMARY],
    registry: &[u8],
    timer: u32,
    clock: u32,
) -> Opened
    ensures { OfOpening registry.now timer clock result m.new }
{
    host::egrynnol_4_opening(m, registry, timer, clock)
}

// A segment arrives at a time: the clock's work, and then the segment's.
// As it was: the call of host once more, with its clause: a crate is a library or a static library, and C hands arguments over one by one.
#[unsafe(no_mangle)]
pub extern "C" fn egrynnol_4_arrival(
    t: Table,
    m: &mut [u64; rules::SUMMARY],
    store: &mut [u8],
    report: &mut [u8],
    time: u32,
    association: u16,
    s: &[u8],
) -> CReceived
    ensures { HostArrival t m.old store.old report.old time association s.now result m.new store.new report.new }
{
    host::egrynnol_4_arrival(t, m, store, report, time, association, s)
}

// The clock goes on.
// As it was: the call of host once more, with its clause: a crate is a library or a static library, and C hands arguments over one by one.
#[unsafe(no_mangle)]
pub extern "C" fn egrynnol_4_clock(
    t: Table,
    m: &mut [u64; rules::SUMMARY],
    report: &mut [u8],
    time: u32,
) -> Swept
    ensures { OfClock t m.old report.old time result m.new report.new }
{
    host::egrynnol_4_clock(t, m, report, time)
}

// An association is released.
// As it was: the call of host once more, with its clause: a crate is a library or a static library, and C hands arguments over one by one.
#[unsafe(no_mangle)]
pub extern "C" fn egrynnol_4_release(
    t: Table,
    m: &mut [u64; rules::SUMMARY],
    report: &mut [u8],
    association: u16,
) -> Swept
    ensures { OfRelease t m.old report.old association result m.new report.new }
{
    host::egrynnol_4_release(t, m, report, association)
}

// Where the octets are that a segment delivered.
// As it was: the call of host once more, with its clause: a crate is a library or a static library, and C hands arguments over one by one.
#[unsafe(no_mangle)]
pub extern "C" fn egrynnol_4_delivery<'a>(
    decision: CDecision,
    s: &'a [u8],
    store: &'a [u8],
) -> CPart
    ensures { HostDelivery decision s.now store.now result }
{
    host::egrynnol_4_delivery(decision, s, store)
}

// Writes one segment of the data.
// As it was: the call of host once more, with its clause: a crate is a library or a static library, and C hands arguments over one by one.
#[unsafe(no_mangle)]
pub extern "C" fn egrynnol_4_sending(
    t: Table,
    q: Request,
    origin: &[u8],
    destination: &[u8],
    whole: &[u8],
    area: &mut [u8],
) -> Sent
    ensures { OfSending t q origin.now destination.now whole.now area.old result area.new }
{
    host::egrynnol_4_sending(t, q, origin, destination, whole, area)
}

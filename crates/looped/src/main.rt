// Data from standard input, up to 2,048 octets, cut into segments, received and delivered to standard output: the same octets.
#![tactic(auto)]

use rules::{Context, Reference, Request, Table};
use streams::Told;

// Context 3 of 1998; T 100.
// As it was: a table of this program's own; vectors opens another.
fn fresh(m: &mut [u64; rules::SUMMARY]) -> Table {
    opening::opening(m, b"\x01\x00\x03", 100, 0).table
}

// Rooms of 209 octets: 2,048 octets take ten segments.
fn asked() -> Request {
    Request {
        context: Context(3),
        instruction: 0,
        reference: Reference(5),
        room1: 209,
        room: 209,
        number: 0,
    }
}

// Prints. Where that fails, it is told.
fn print(rt: &HostRuntime, octets: &[u8]) -> Result<(), Told> {
    streams::write(rt, &mut rt.stdout(), b"looped: cannot write", octets)
}

// As it was: what is printed is the number.
fn refused(rt: &HostRuntime, number: u8) -> Result<(), Told> {
    print(rt, b"refused ")?;
    print(rt, itoa::Buffer::new().format(number).as_bytes())?;
    print(rt, b"\n")
}

// As it was: the answer has a number (Looped).
fn looped(rt: &HostRuntime, data: &[u8]) -> Result<(), Told> {
    let mut summary = [0; rules::SUMMARY];
    let table = fresh(&mut summary);
    let mut area = [0; 255];
    let mut store = [0; rules::STORE];
    let mut report = [0; rules::REPORT_ARRIVAL];
    let r = loopback::loopback(
        table,
        &mut summary,
        asked(),
        9,
        b"",
        b"",
        data,
        &mut area,
        &mut store,
        &mut report,
    );
    if r.number != 0 {
        return refused(rt, r.number);
    }
    let last = octets::part(&area, 0, usize::from(r.length));
    print(rt, receiver::delivery(r.decision, last, &store))
}

// Reads all there is, and loops it.
fn run(rt: &HostRuntime) -> Result<(), Told> {
    let mut data = [0; 2049];
    let n = streams::fill(rt, &mut rt.stdin(), b"looped: cannot read", &mut data).map_err(
        |_| Told,
    )?;
    looped(rt, &data[..n])
}

fn main(rt: HostRuntime) {
    if streams::misused(&rt, streams::words(&rt), b"usage: looped < DATA\n") {
        return;
    }
    // what failed was told
    let _ = run(&rt);
}

// The paper's examples, M and the rest, run by the compiled calls. What is printed is held to the file stdout.
#![tactic(auto)]

use rules::{Context, Reference, Request, Table};
use std::fmt;

// Octets in hexadecimal, or a dash where there are none.
#[derive(Clone, Copy)]
struct Octets<'a>(&'a [u8]);

impl fmt::Display for Octets<'_> {
    fn fmt<W: fmt::Write>(&self, f: &mut fmt::Formatter<W>) -> fmt::Result {
        if self.0.is_empty() {
            return write!(f, "-");
        }
        for x in self.0 {
            write!(f, "{x:02x}")?;
        }
        Ok(())
    }
}

// The position of an octet, or a dash where there is none.
#[derive(Clone, Copy)]
struct Position(u16);

impl fmt::Display for Position {
    fn fmt<W: fmt::Write>(&self, f: &mut fmt::Formatter<W>) -> fmt::Result {
        let at = self.0;
        if at == rules::NOWHERE {
            return write!(f, "-");
        }
        write!(f, "{at}")
    }
}

// A table, and what is lent with it.
#[derive(Drop)]
struct Bench {
    table: Table,
    summary: [u64; rules::SUMMARY],
    store: [u8; rules::STORE],
}

impl Bench {
    // Registry 01 00 03, 02 00 04; T 100.
    fn open(clock: u32) -> Bench {
        let mut summary = [0; rules::SUMMARY];
        let opened = opening::opening(&mut summary, b"\x01\x00\x03\x02\x00\x04", 100, clock);
        Bench {
            table: opened.table,
            summary,
            store: [0; rules::STORE],
        }
    }

    // An arrival: its refusal and the octet at fault, its records and how many are the clock's, and their octets; then how many octets it delivers, with the first of them.
    fn arrival(&mut self, rt: &impl Print, time: u32, s: &[u8]) {
        let mut report = [0; rules::REPORT_ARRIVAL];
        let r = receiver::arrival(
            self.table,
            &mut self.summary,
            &mut self.store,
            &mut report,
            time,
            9,
            s,
        );
        self.table = r.table;
        let _ = print!(rt;
            "segment {} {} {} {}",
            r.refusal,
            Position(r.position),
            r.records,
            r.timeouts
        );
        for record in report.chunks(rules::RECORD).take(usize::from(r.records)) {
            let _ = print!(rt; " {}", Octets(record));
        }
        let part = receiver::delivery(r.decision, s, &self.store);
        let _ = println!(rt; " {} {}", part.len(), Octets(octets::part(part, 0, 4)));
    }

    // .. at the table's own time.
    fn segment(&mut self, rt: &impl Print, s: &[u8]) {
        self.arrival(rt, self.table.clock, s);
    }

    // The clock: its refusal, its records, and the first of them where it is the only one.
    fn clock(&mut self, rt: &impl Print, time: u32) {
        let mut report = [0; rules::REPORT];
        let r = receiver::clock(self.table, &mut self.summary, &mut report, time);
        self.table = r.table;
        let _ = print!(rt; "clock {} {}", r.refusal, r.records);
        if r.records == 1 {
            let _ = print!(rt; " {}", Octets(octets::part(&report, 0, rules::RECORD)));
        }
        let _ = println!(rt);
    }
}

fn alone(rt: &impl Print, name: &str, s: &[u8]) {
    let _ = print!(rt; "{name} ");
    Bench::open(0).segment(rt, s);
}

fn two(rt: &impl Print, name: &str, s: &[u8], u: &[u8]) {
    let mut bench = Bench::open(0);
    for segment in [s, u] {
        let _ = print!(rt; "{name} ");
        bench.segment(rt, segment);
    }
}

// A sending of n octets with context 3: its refusal, count and length, and the segment's first octets.
fn sending(rt: &impl Print, data: &[u8], room1: usize, room: usize, number: usize) {
    let mut area = [0; 255];
    let q = Request {
        context: Context(3),
        instruction: 0,
        reference: Reference(5),
        room1,
        room,
        number,
    };
    let r = sender::sending(Bench::open(0).table, q, b"", b"", data, &mut area);
    let first = octets::part(octets::part(&area, 0, usize::from(r.length)), 0, 7);
    let _ = println!(rt;
        "sending {} {} {} {}",
        r.refusal,
        r.count,
        r.length,
        Octets(first)
    );
}

// Ten segments of a sequence: nine of 227 octets, and a last one of so many.
fn ten(rt: &impl Print, last: usize) {
    let mut bench = Bench::open(0);
    let mut part = [7; 255];
    part[0] = 0x83;
    part[1] = 0x80;
    part[3] = 0x85;
    for k in 0..9 {
        part[2] = if k == 0 { 0x49 } else { 9 - k };
        bench.segment(rt, octets::part(&part, 0, 231));
    }
    part[2] = 0;
    bench.segment(rt, octets::part(&part, 0, last));
}

fn timed(rt: &impl Print) {
    let mut bench = Bench::open(0);
    bench.segment(rt, b"\x83\x81\x41\x85\xAA");
    bench.clock(rt, 99);
    bench.clock(rt, 100);
    bench.clock(rt, 100);
    let mut late = Bench::open(4294967290);
    late.clock(rt, 5);
    late.clock(rt, 4);
}

// Document 02, A3: first segments to 00 07 and to 07; a last segment to the same, and to another; one that is not segmented.
fn exchanges(rt: &impl Print) {
    let first = b"\x84\x80\x41\x85\x00\x02\x00\x07\xAA";
    two(rt, "A3", first, b"\x84\x80\x41\x85\x00\x01\x07\xBB");
    two(rt, "A3", first, b"\x84\x80\x00\x85\x00\x02\x00\x07\xBB");
    two(rt, "A3", first, b"\x84\x80\x00\x85\x00\x01\x07\xBB");
    alone(rt, "A3", b"\x84\x80\xC0\x01\x09\x02\x07\x00\xAA");
}

// Document 02, A5: a parameter that ends before octet 3, in octet 1a, in an address; 6 at 1a and at 3a; 7 with 3a and without; 8 at 1a; 9 at both lengths; 23; and 4,
// which blames no octet.
fn faults(rt: &impl Print) {
    alone(rt, "A5", b"\x83\x80");
    alone(rt, "A5", b"\x05");
    alone(rt, "A5", b"\x84\x80\xC0\x03\x01\x02");
    alone(rt, "A5", b"\x05\x05");
    alone(rt, "A5", b"\x83\x80\x40\x05");
    alone(rt, "A5", b"\x84\x80\x40\x85\x15");
    alone(rt, "A5", b"\x84\x80\xC1");
    alone(rt, "A5", b"\x05\x81");
    alone(rt, "A5", b"\x84\x80\xC0\x15");
    alone(rt, "A5", b"\x84\x80\xC0\x00\x15");
    alone(rt, "A5", b"\x05\x80");
    let long = [0x83u8; 256];
    alone(rt, "A5", &long);
}

// A first segment at 0, an arrival at another time, and the clock at 199 and 200. T is 100.
fn late(rt: &impl Print, time: u32, s: &[u8]) {
    let mut bench = Bench::open(0);
    bench.arrival(rt, 0, b"\x83\x81\x41\x85\xAA");
    bench.arrival(rt, time, s);
    bench.clock(rt, 199);
    bench.clock(rt, 200);
}

// Document 02, A6: the last segment in time, and when its sequence is lost before it; a refusal 8 with that loss beside it; a first segment in the place that this frees, whose time
// runs from its arrival; a step back.
fn arrivals(rt: &impl Print) {
    late(rt, 99, b"\x83\x80\x00\x85\xBB");
    late(rt, 100, b"\x83\x80\x00\x85\xBB");
    late(rt, 100, b"\x85");
    late(rt, 100, b"\x83\x80\x41\x85\xCC");
    late(rt, 4294967295, b"\x83\x80\x00\x85\xBB");
}

fn run(rt: &impl Print) {
    alone(rt, "M1", b"");
    alone(rt, "M2", b"\x83\x80\xC0\xAA\xBB");
    two(rt, "M3", b"\x83\x81\x41\x85\xAA", b"\x83\x80\x00\x85\xBB");
    alone(rt, "M4", b"\x83\x80\x00\x85\xBB");
    alone(rt, "M5", b"\x83\x80\x49\x85");
    alone(rt, "M6", b"\x83\x80\x4A\x85");
    alone(rt, "M7", b"\x83\x80\x40\x85");
    alone(rt, "M8", b"\x83\x80\xC1");
    alone(rt, "M9", b"\x83\x00");
    alone(rt, "M10", b"\x85");
    two(
        rt,
        "M11",
        b"\x84\x80\x41\x85\x02\x00\x07\x00\xAA",
        b"\x84\x80\x41\x85\x01\x07\x00\xBB",
    );
    alone(rt, "M12", b"\x03\x80\x80\xC0\xAA");
    exchanges(rt);
    faults(rt);
    arrivals(rt);
    sending(rt, b"\x01\x02\x03\x04\x05", 8, 8, 0);
    sending(rt, b"\x01\x02\x03\x04\x05", 7, 7, 0);
    sending(rt, b"\x01\x02\x03\x04\x05", 7, 7, 1);
    let data = [7u8; 2048];
    sending(rt, &data, 209, 209, 0);
    sending(rt, &data, 209, 209, 9);
    sending(rt, &data, 208, 208, 0);
    timed(rt);
    ten(rt, 9);
    ten(rt, 10);
}

// What cannot be printed is missed by the comparison with the file stdout, and what comes after it is printed all the same.
fn main(rt: HostRuntime) {
    run(&rt);
}

// The lines of the program records, written into a lent area: an event's, a record's, and those of sequences that are open and have no record.
#![tactic(auto)]

ghost use Rattle.std.specs.Prelude.{◌≡◌, [], ◌∷◌, ◌+◌, ◌*◌, ◌≤◌, length, take, drop};
ghost use Rattle.rules.specs.Numbers.{place_count};
ghost use Rattle.rules.specs.Places.{is_open};
ghost use Rattle.rules.specs.Records.{record_length, recorded_at, record_from, records_from};
ghost use Rattle.rules.specs.Sweep.{loss_of};
ghost use Rattle.rules.specs.Arrival.{records_most, arrival_least};
ghost use Rattle.rules.specs.Listing.{hex_digit, hex_of, address_word, record_line, record_word, record_lines, open_lines, end_word, held_word};
ghost use Rattle.trace_lines.specs.Writers.{Writes};
ghost use Rattle.trace_records.specs.Listing.{line_most, event_most, named_fields, count_fields, timeouts_for, line_for, listing_for, end_for};

use rules::{Address, Context, Decision, Key, Place, Record, Reference};
use trace_items::Happening;
use trace_lines::Writer;

// The address that a record has at a position.
fn address_in(l: &[u8], at: usize) -> Address
    requires { (at ≤ 100) × (at + 21 ≤ length l.now) }
    ensures { result ≡ recorded_at l.now at }
{
    let mut octets = [0; rules::ADDRESS];
    octets.copy_from_slice(&l[at + 1..at + 21]);
    Address {
        octets,
        length: l[at],
    }
}

// The record that so many octets are.
fn record_of(l: &[u8]) -> Record
    requires { length l.now ≡ record_length }
    ensures { result ≡ record_from l.now }
{
    let origin = address_in(l, 11);
    let destination = address_in(l, 32);
    let key = Key {
        association: octets::number2(l[1], l[2]),
        context: Context(octets::number2(l[3], l[4])),
        origin,
        destination,
        reference: Reference(l[5]),
    };
    Record {
        key,
        octets: octets::number2(l[9], l[10]),
        kind: l[0],
        instruction: l[6],
        cause: l[7],
        segments: l[8],
    }
}

// A digit in hex, a capital letter from ten on.
// As it was: the kit's hex writes small letters where it needs no heap, and what the programs print stays.
fn hex_digit(x: u8) -> u8
    requires { x ≤ 15 }
    ensures { result ≡ hex_digit x }
{
    if x < 10 {
        return 48 + x;
    }
    55 + x
}

// An octet in hex, two digits.
// As it was: as put_hex.
fn put_pair(w: &mut Writer<'_>, x: u8)
    requires { w.old.at ≤ 65000 }
    ensures { Writes w.old (hex_of (x ∷ [])) w.new }
{
    w.put_octet(hex_digit(x / 16));
    w.put_octet(hex_digit(x % 16));
}

// Octets in hex.
// As it was: the kit's hex writes small letters where it needs no heap, and listing of rules has capitals.
fn put_hex(w: &mut Writer<'_>, octets: &[u8])
    requires { (w.old.at ≤ 60000) × (length octets.now ≤ 20) }
    ensures wrote { Writes w.old (hex_of octets.now) w.new }
    ensures upper_bound { w.new.at ≤ w.old.at + 40 }
{
    for x in octets {
        put_pair(w, *x);
    }
}

// A space, and an address or a dash: its octets, as many as its length says.
fn put_address(w: &mut Writer<'_>, a: &Address)
    requires { w.old.at ≤ 50000 }
    ensures wrote { Writes w.old (32 ∷ address_word a.now) w.new }
    ensures upper_bound { w.new.at ≤ w.old.at + 41 }
{
    if a.length == 0 {
        w.put_word(b" -");
    } else {
        w.put_octet(32);
        put_hex(w, octets::part(&a.octets, 0, usize::from(a.length)));
    }
}

// A word, and what names a sequence but for its addresses.
fn put_named(w: &mut Writer<'_>, word: &[u8], key: &Key)
    requires { (w.old.at ≤ 10000) × (length word.now ≤ 9) }
    ensures wrote { Writes w.old (named_fields word.now key.now) w.new }
    ensures upper_bound { w.new.at ≤ w.old.at + 72 }
{
    w.put_word(word);
    w.put_field(u64::from(key.association));
    w.put_field(u64::from(key.context.0));
    w.put_unless(255, u64::from(key.reference.0));
}

// What a record says of its sequence: instruction, cause, segments and octets.
fn put_counts(w: &mut Writer<'_>, r: &Record)
    requires { w.old.at ≤ 20000 }
    ensures wrote { Writes w.old (count_fields r.now) w.new }
    ensures upper_bound { w.new.at ≤ w.old.at + 84 }
{
    w.put_field(u64::from(r.instruction));
    w.put_field(u64::from(r.cause));
    w.put_field(u64::from(r.segments));
    w.put_field(u64::from(r.octets));
}

// A record's line, behind a word.
fn put_record(w: &mut Writer<'_>, word: &[u8], r: &Record)
    requires { (w.old.at ≤ 10000) × (length word.now ≤ 9) }
    ensures wrote { Writes w.old (record_line word.now r.now) w.new }
    ensures upper_bound { w.new.at ≤ w.old.at + line_most }
{
    put_named(w, word, &r.key);
    put_counts(w, r);
    put_address(w, &r.key.origin);
    put_address(w, &r.key.destination);
    w.put_octet(10);
}

// The line of a record of a report.
// As it was: a record's kind is an octet (record_from).
fn put_told(w: &mut Writer<'_>, from: &[u8])
    requires { (w.old.at ≤ 10000) × (length from.now ≡ record_length) }
    ensures wrote { Writes w.old (record_lines (record_from from.now ∷ [])) w.new }
    ensures upper_bound { w.new.at ≤ w.old.at + line_most }
{
    let r = record_of(from);
    if r.kind == rules::DELIVERED {
        put_record(w, b"delivered", &r);
    } else {
        put_record(w, b"lost", &r);
    }
}

// The lines of the first n records of a report.
fn put_records(w: &mut Writer<'_>, report: &[u8], n: usize)
    requires { (w.old.at ≤ 1000) × ((n ≤ records_most) × (record_length * n ≤ length report.now)) }
    ensures wrote { Writes w.old (record_lines (records_from n report.now)) w.new }
    ensures upper_bound { w.new.at ≤ w.old.at + line_most * n }
{
    for i in 0..n {
        put_told(w, octets::part(report, rules::RECORD * i, rules::RECORD));
    }
}

// The line of a place, where it is open: the fields that a loss of its sequence would have, and cause 0.
// As it was: a record of an open place has no cause and goes nowhere but into a line; receive_sweep's is a loss.
fn put_place(w: &mut Writer<'_>, word: &[u8], p: &Place)
    requires { (w.old.at ≤ 10000) × (length word.now ≤ 9) }
    ensures wrote { Writes w.old (open_lines word.now (p.now ∷ [])) w.new }
    ensures upper_bound { w.new.at ≤ w.old.at + line_most }
{
    if p.mark != 1 {
        return;
    }
    let r = Record {
        key: p.key,
        octets: p.octets,
        kind: rules::LOST,
        instruction: p.instruction,
        cause: 0,
        segments: p.segments,
    };
    put_record(w, word, &r);
}

// The lines of the open places.
fn put_open(w: &mut Writer<'_>, word: &[u8], places: &[Place; 16])
    requires { (w.old.at ≤ 5000) × (length word.now ≤ 9) }
    ensures wrote { Writes w.old (open_lines word.now places.now) w.new }
    ensures upper_bound { w.new.at ≤ w.old.at + line_most * place_count }
{
    for p in places {
        put_place(w, word, p);
    }
}

// What became of an event.
fn put_decision(w: &mut Writer<'_>, refusal: u8, decision: Decision)
    requires { w.old.at ≤ 10000 }
    ensures wrote { Writes w.old (end_word refusal decision) w.new }
    ensures upper_bound { w.new.at ≤ w.old.at + 28 }
{
    if refusal != 0 {
        w.put_word(b"refused");
        return w.put_field(u64::from(refusal));
    }
    match decision {
        Decision::Refused => w.put_octet(45),
        Decision::Saved(p) => {
            w.put_word(b"saved");
            // As it was: u64 has no From for usize.
            w.put_field(p as u64)
        }
        Decision::Delivered(_) => w.put_word(b"delivered"),
        Decision::Lost(_, _) => w.put_word(b"lost"),
    }
}

// Of a segment's line, how many of its records are the clock's.
// As it was: a kind is the octet of the trace's record (timeouts_for).
fn put_timeouts(w: &mut Writer<'_>, h: &Happening)
    requires { w.old.at ≤ 10000 }
    ensures wrote { Writes w.old (timeouts_for h.now.kind h.now.timeouts) w.new }
    ensures upper_bound { w.new.at ≤ w.old.at + 21 }
{
    if h.kind == 33 {
        w.put_field(u64::from(h.timeouts));
    }
}

// An event's line, with its number.
fn put_line(w: &mut Writer<'_>, number: u64, h: &Happening, report: &[u8])
    requires { (w.old.at ≤ 0) × ((h.now.records ≤ records_most) × (record_length * h.now.records ≤ length report.now)) }
    ensures wrote { Writes w.old (line_for number h.now report.now) w.new }
    ensures upper_bound { w.new.at ≤ event_most }
{
    w.put_fields(h, report);
    w.put_field(number);
    put_timeouts(w, h);
    w.put_octet(32);
    put_decision(w, h.refusal, h.decision);
    w.put_octet(10);
}

// All that is printed of an event: its line, its records, and what an opening drops of the places before it.
// As it was: a kind is the octet of the trace's record (listing_for).
pub fn put_event(
    w: &mut Writer<'_>,
    number: u64,
    h: &Happening,
    report: &[u8],
    places: &[Place; 16],
)
    requires { (w.old.at ≤ 0) × ((h.now.records ≤ records_most) × (record_length * h.now.records ≤ length report.now)) }
    ensures wrote { Writes w.old (listing_for number h.now report.now places.now) w.new }
    ensures upper_bound { w.new.at ≤ 9000 }
{
    put_line(w, number, h, report);
    put_records(w, report, usize::from(h.records));
    if h.kind == 32 {
        put_open(w, b"dropped", places);
    }
}

// The end: what is held, and where the trace stops, the line that says so.
pub fn put_end(w: &mut Writer<'_>, places: &[Place; 16], stops: bool)
    requires { w.old.at ≤ 0 }
    ensures wrote { Writes w.old (end_for places.now «stops») w.new }
    ensures upper_bound { w.new.at ≤ 8000 }
{
    put_open(w, b"held", places);
    w.put_end(stops);
}

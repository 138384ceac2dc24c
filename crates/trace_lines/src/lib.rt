// A line of the replay program, written into a lent area; and the writers of numbers and words that other lines use too.
#![tactic(auto)]

ghost use Rattle.std.specs.Prelude.{◌≡◌, [], ◌∷◌, ◌+◌, ◌*◌, ◌≤◌, length};
ghost use Rattle.octets.specs.Splice.{Wrote};
ghost use Rattle.rules.specs.Records.{record_length, record_from, records_from};
ghost use Rattle.rules.specs.Arrival.{records_most};
ghost use Rattle.rules.specs.Lines.{decimal, field, number_unless, octets_of, stop_if};
ghost use Rattle.trace_lines.specs.Writers.{Writes};
ghost use Rattle.trace_lines.specs.Printing.{name_for, counts_most, counts_for, fields_most, fields_for, line_for};

use trace_items::Happening;

// Where lines are written: a lent area, and the place of the next octet, which may be past the area's end.
#[derive(Drop)]
pub struct Writer<'a> {
    pub area: &'a mut [u8],
    pub at: usize,
}

impl Writer<'_> {
    // One octet.
    pub fn put_octet(&mut self, x: u8)
        requires { self.old.at ≤ 65536 }
        ensures { Writes self.old (x ∷ []) self.new }
    {
        let at = self.at;
        self.at += 1;
        if at < self.area.len() {
            self.area[at] = x;
        }
    }

    // A word.
    pub fn put_word(&mut self, word: &[u8])
        requires { (self.old.at ≤ 65536) × (length word.now ≤ 65536) }
        ensures { Writes self.old word.now self.new }
    {
        octets::put_at(self.area, self.at, word);
        self.at += word.len();
    }

    // A number in decimal. Most numbers of a line have one digit.
    // As it was: one digit is written by itself, since most numbers have one; the others are the kit's itoa.
    pub fn put_number(&mut self, x: u64)
        requires { self.old.at ≤ 65536 }
        ensures wrote { Writes self.old (decimal x) self.new }
        ensures upper_bound { self.new.at ≤ self.old.at + 20 }
    {
        if x < 10 {
            return self.put_octet(48 + (x % 10) as u8);
        }
        let mut digits = itoa::Buffer::new();
        self.put_word(digits.format(x).as_bytes());
    }

    // A space and a number.
    pub fn put_field(&mut self, x: u64)
        requires { self.old.at ≤ 65000 }
        ensures wrote { Writes self.old (field x) self.new }
        ensures upper_bound { self.new.at ≤ self.old.at + 21 }
    {
        self.put_octet(32);
        self.put_number(x);
    }

    // A space, and a number, or a dash in the place of one.
    // As it was: a number stands for none, in a record and an answer too, and number_unless of rules speaks of it.
    pub fn put_unless(&mut self, none: u64, x: u64)
        requires { self.old.at ≤ 65000 }
        ensures wrote { Writes self.old (32 ∷ number_unless none x) self.new }
        ensures upper_bound { self.new.at ≤ self.old.at + 21 }
    {
        if x == none {
            self.put_word(b" -")
        } else {
            self.put_field(x)
        }
    }

    // The name of an event, by its kind.
    // As it was: a kind is the octet of the trace's record (name_for).
    fn put_name(&mut self, kind: u8)
        requires { self.old.at ≤ 65536 }
        ensures wrote { Writes self.old (name_for kind) self.new }
        ensures upper_bound { self.new.at ≤ self.old.at + 7 }
    {
        self.put_word(match kind {
            32 => b"open",
            33 => b"segment",
            34 => b"clock",
            _ => b"release",
        })
    }

    // What every event's line begins with: its name, its refusal, and of the records that it made how many there are and their octets, delivered and lost.
    fn put_counts(&mut self, h: &Happening, report: &[u8])
        requires { (self.old.at ≤ 1000) × ((h.now.records ≤ records_most) × (record_length * h.now.records ≤ length report.now)) }
        ensures wrote { Writes self.old (counts_for h.now.kind h.now.refusal h.now.records report.now) self.new }
        ensures upper_bound { self.new.at ≤ self.old.at + counts_most }
    {
        let records = usize::from(h.records);
        self.put_name(h.kind);
        self.put_field(u64::from(h.refusal));
        self.put_field(u64::from(h.records));
        self.put_field(total(report, records, rules::DELIVERED));
        self.put_field(total(report, records, rules::LOST));
    }

    // An event's fields: a segment's end with the position of the octet at fault.
    // As it was: a kind is the octet of the trace's record (fields_for).
    pub fn put_fields(&mut self, h: &Happening, report: &[u8])
        requires { (self.old.at ≤ 1000) × ((h.now.records ≤ records_most) × (record_length * h.now.records ≤ length report.now)) }
        ensures wrote { Writes self.old (fields_for h.now.kind h.now.refusal h.now.position h.now.records report.now) self.new }
        ensures upper_bound { self.new.at ≤ self.old.at + fields_most }
    {
        self.put_counts(h, report);
        if h.kind == 33 {
            self.put_unless(u64::from(rules::NOWHERE), u64::from(h.position));
        }
    }

    // An event's line.
    pub fn put_line(&mut self, h: &Happening, report: &[u8])
        requires { (self.old.at ≤ 1000) × ((h.now.records ≤ records_most) × (record_length * h.now.records ≤ length report.now)) }
        ensures wrote { Writes self.old (line_for h.now.kind h.now.refusal h.now.position h.now.records report.now) self.new }
        ensures upper_bound { self.new.at ≤ self.old.at + fields_most + 1 }
    {
        self.put_fields(h, report);
        self.put_octet(10);
    }

    // The end: where the trace stops, the line that says so.
    #[tactic(auto, using(crate::proofs::Writers::writes_none))]
    pub fn put_end(&mut self, stops: bool)
        requires { self.old.at ≤ 65536 }
        ensures wrote { Writes self.old (stop_if «stops») self.new }
        ensures upper_bound { self.new.at ≤ self.old.at + 5 }
    {
        if stops {
            self.put_word(b"stop\n");
        }
    }
}

// The octets of a kind's records among the first n of a report.
fn total(report: &[u8], n: usize, kind: u8) -> u64
    requires { (n ≤ records_most) × (record_length * n ≤ length report.now) }
    ensures { result ≡ octets_of kind (records_from n report.now) }
{
    let mut sum = 0;
    for i in 0..n {
        sum += octets_in(octets::part(report, rules::RECORD * i, rules::RECORD), kind);
    }
    sum
}

// The octets of a record, where it is of a kind.
fn octets_in(from: &[u8], kind: u8) -> u64
    requires { record_length ≤ length from.now }
    ensures value { result ≡ octets_of kind (record_from from.now ∷ []) }
    ensures upper_bound { result ≤ 65535 }
{
    if from[0] != kind {
        return 0;
    }
    u64::from(octets::number2(from[9], from[10]))
}

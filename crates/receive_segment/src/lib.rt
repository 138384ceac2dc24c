// Segments joined: the segment's part of an arrival.
#![tactic(auto)]

ghost use Rattle.std.specs.Prelude.{◌≡◌, true, List, ℕ, ◌≤◌, ◌<◌, length, drop, get_or};
ghost use Rattle.rules.specs.Numbers.{store_least, place_count};
ghost use Rattle.rules.specs.Refusals.{unplaced, judged_at};
ghost use Rattle.rules.specs.Records.{record_length};
ghost use Rattle.rules.specs.Places.{no_place};
ghost use Rattle.rules.specs.Receiving.{key_of, information_of, lent_checks};
ghost use Rattle.rules.specs.Soundness.{sound};
ghost use Rattle.rules.specs.declared.Key.{Key};
ghost use Rattle.refusals.specs.Numbers.{number_of};
ghost use Rattle.param_read.specs.Reading.{reading};
ghost use Rattle.receive_perform.specs.Performing.{refused_with, fault_of, count_told, Fits, Leads};
ghost use Rattle.receive_count.specs.Counting.{sums_by, OfCount};
ghost use Rattle.table.specs.Seeking.{place_in};
ghost use Rattle.receive_seek.specs.Seeking.{Seeks};
ghost use Rattle.rules.specs.Summary.{summary_sound};
ghost use Rattle.receive_segment.specs.Arrival.{arrival, OfVerdict, OfWeighing, OfSegment, settled_by};

use receive_carry::Judged;
use receive_perform::Verdict;
use receive_seek::Sought;
use refusals::Refusal;
use rules::{Decision, Fault, Fields, Place, Received, Table};

// A refusal that blames no octet.
fn unplaced(r: Refusal) -> Fault
    ensures { result ≡ unplaced (number_of r) }
{
    Fault {
        number: u8::from(r),
        position: rules::NOWHERE,
    }
}

// A refusal: the place stays as it is, and nothing is to be written.
fn refused(fault: Fault, held: Place) -> Verdict
    ensures { result ≡ refused_with fault held }
{
    receive_perform::quiet(held, Decision::Refused, Some(fault), 0)
}

// The verdict on a segment that has been read. The checks of where its line takes it are the last ones.
fn arrive(t: &Table, s: &[u8], f: Fields, q: Sought, held: Place) -> Verdict
    requires t_value { (sound t.now ≡ true) × ((reading t.now.registry s.now ≡ Ok f) × Seeks t.now q.key f.heading q) }
    requires at_lt_place_count { (place_in q.search < place_count) × (held ≡ get_or t.now.places (place_in q.search) no_place) }
    ensures by_index { (store report : List ℕ) → Leads (arrival t.now store report q.key f (information_of s.now f)) t.now (place_in q.search) q.key result (drop result.information s.now) store report }
    ensures by_index_2 { (store : ℕ) → store_least ≤ store → Fits result store (length (drop result.information s.now)) }
    ensures information_value { result.refused ≡ None → result.information ≡ f.information }
    ensures some { (x : Fault) → result.refused ≡ Some x → x.number ≡ 0 → ⊥ }
{
    let n = param_read::tail(s, f.information).len();
    let line = receive_lines::line_of(
        q.search.is_found(),
        held.remaining,
        held.octets,
        f.heading,
        n,
    );
    let full = receive_lines::starts(line) & q.search.is_nowhere();
    if full {
        return refused(unplaced(Refusal::NoPlaceFree), held);
    }
    let j = Judged {
        key: q.key,
        fields: f,
        held,
        clock: t.clock,
        search: q.search,
        length: n as u8,
    };
    receive_carry::judge(line, j)
}

// A parameter's fields, where the table and the lent areas let it be looked at.
fn readable(
    is_sound: bool,
    store: usize,
    report: usize,
    reading: Result<Fields, Fault>,
) -> Result<Fields, Fault>
    ensures value { result ≡ judged_at (lent_checks record_length is_sound store report) Err reading }
    ensures read { (f : Fields) → result ≡ Ok f → (is_sound ≡ true) × ((store_least ≤ store) × (reading ≡ Ok f)) }
    ensures some { ((x : Fault) → reading ≡ Err x → x.number ≡ 0 → ⊥) → (x : Fault) → result ≡ Err x → x.number ≡ 0 → ⊥ }
{
    lent::areas(is_sound, store, report, rules::RECORD).map_err(unplaced)?;
    reading
}

// The verdict on a segment at a table, whether sound or not, with a store and a report area of these lengths.
fn judge(
    t: &Table,
    is_sound: bool,
    store: usize,
    report: usize,
    association: u16,
    s: &[u8],
    q: Sought,
    held: Place,
) -> Verdict
    requires is_sound_value { is_sound ≡ sound t.now }
    requires reading_value { (q.reading ≡ reading t.now.registry s.now) × ((f : Fields) → q.reading ≡ Ok f → Seeks t.now (key_of association s.now f) f.heading q) }
    requires at_lt_place_count { (place_in q.search < place_count) × (held ≡ get_or t.now.places (place_in q.search) no_place) }
    ensures { OfVerdict t.now store report association s.now (place_in q.search) q.key result }
{
    match readable(is_sound, store, report, q.reading) {
        Ok(f) => arrive(t, s, f, q, held),
        Err(fault) => refused(fault, held),
    }
}

// What a call on a segment of n octets comes to, by its verdict and the summary: the row in which it is counted, or its refusal.
fn count(
    m: &[u64; rules::SUMMARY],
    is_summed: bool,
    association: u16,
    n: usize,
    v: Verdict,
) -> Result<usize, Fault>
    ensures { OfWeighing m.now is_summed association n v result }
{
    if !is_summed {
        return Err(unplaced(Refusal::Unsound));
    }
    if let Some(fault) = v.refused {
        return Err(fault);
    }
    receive_count::judge(m, association, n, v).map_err(unplaced)
}

// The last verdict: a refusal where the summary, or a check before it, refuses.
fn settle(counted: Result<usize, Fault>, held: Place, v: Verdict) -> Verdict
    ensures { result ≡ settled_by counted held v }
{
    match counted {
        Ok(_) => v,
        Err(x) => refused(x, held),
    }
}

// Counts a segment in the summary, unless it is refused.
fn tally(
    m: &mut [u64; rules::SUMMARY],
    counted: Result<usize, Fault>,
    association: u16,
    n: usize,
    v: Verdict,
)
    requires { (row : ℕ) → counted ≡ Ok row → OfCount m.old association n v (Ok row) }
    ensures m_after { (row : ℕ) → counted ≡ Ok row → (key : Key) → key.association ≡ association → m.new ≡ sums_by m.old association n v key }
    ensures m_unchanged { (x : Fault) → counted ≡ Err x → m.new ≡ m.old }
{
    if let Ok(row) = counted {
        receive_count::perform(m, row, association, n, v);
    }
}

// The answer to a segment, refused or taken, with the table as it is left.
fn received(t: Table, v: Verdict) -> Received
    ensures { result ≡ record { table = t; decision = v.decision; position = (fault_of v.refused).position; refusal = (fault_of v.refused).number; records = count_told v.told; timeouts = 0 } }
{
    let fault = v.refused.unwrap_or(Fault {
        number: 0,
        position: rules::NOWHERE,
    });
    Received {
        table: t,
        decision: v.decision,
        position: fault.position,
        refusal: fault.number,
        records: u8::from(v.told.is_some()),
        timeouts: 0,
    }
}

// A segment at a table, of which it is known whether it is sound, and whether the summary is beside it. All is judged, reading only; then the last verdict is performed, and one place of
// the copy of the table is written. A refusal writes nothing, and its place stays: so there is one end for both, and the copy goes to the answer at once. A later check goes before the
// first writing.
// As it was: the clause OfSegment names each of these.
pub fn segment(
    t: &Table,
    is_sound: bool,
    is_summed: bool,
    m: &mut [u64; rules::SUMMARY],
    store: &mut [u8],
    report: &mut [u8],
    association: u16,
    s: &[u8],
) -> Received
    requires { (is_sound ≡ sound t.now) × (is_summed ≡ summary_sound m.old t.now.places) }
    ensures { OfSegment t.now m.old store.old report.old association s.now result m.new store.new report.new }
{
    let q = receive_seek::seek(t, association, s);
    let at = q.search.at();
    let held = t.places[at];
    let v = judge(
        t,
        is_sound,
        store.len(),
        report.len(),
        association,
        s,
        q,
        held,
    );
    let octets = param_read::tail(s, v.information);
    let n = octets.len();
    let counted = count(m, is_summed, association, n, v);
    tally(m, counted, association, n, v);
    let w = settle(counted, held, v);
    receive_perform::perform(w, at, q.key, store, report, octets);
    let mut next = *t;
    next.places[at] = w.put;
    received(next, w)
}

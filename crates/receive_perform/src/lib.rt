// A segment's verdict, and what performing it writes. Judging makes the verdict, and writes nothing.
#![tactic(auto)]

ghost use Rattle.std.specs.Prelude.{◌≡◌, ◌<◌, length};
ghost use Rattle.rules.specs.Numbers.{place_count};
ghost use Rattle.receive_perform.specs.Performing.{quietly, saved_by, told_by, Fits};

use rules::{Decision, Fault, Key, Place, Record};

// What a segment's record says beside its key, which is the segment's.
#[derive(Clone, Copy)]
pub struct Told {
    pub octets: u16,
    pub kind: u8,
    pub instruction: u8,
    pub cause: u8,
    pub segments: u8,
}

// What becomes of a segment: what its place holds afterwards, the answer but for the table, and what is to be written.
// Where it saves, the parameter's octets from information on go to the place's stretch of the store, from that index of it on.
#[derive(Clone, Copy)]
pub struct Verdict {
    pub put: Place,
    pub decision: Decision,
    pub information: usize,
    pub saves: Option<u16>,
    pub told: Option<Told>,
    pub refused: Option<Fault>,
}

// A verdict that writes nothing: what its place is to hold, its decision, its refusal, if any, with the octet at fault, and where the information is.
pub fn quiet(put: Place, decision: Decision, refused: Option<Fault>, information: usize) -> Verdict
    ensures { result ≡ quietly put decision refused information }
{
    Verdict {
        put,
        decision,
        information,
        saves: None,
        told: None,
        refused,
    }
}

// Saves the information in its place's stretch of the store where a verdict saves.
fn save(v: &Verdict, place: usize, store: &mut [u8], octets: &[u8])
    requires { (place < place_count) × Fits v.now (length store.old) (length octets.now) }
    ensures { store.new ≡ saved_by v.now place octets.now store.old }
{
    if let Some(from) = v.saves {
        let start = rules::STRETCH * place;
        let stretch = &mut store[start..start + rules::STRETCH];
        octets::put_at(stretch, usize::from(from), octets);
    }
}

// Writes a verdict's record, where it has one, to the front of the report.
fn tell(v: &Verdict, key: Key, report: &mut [u8])
    ensures { report.new ≡ told_by v.now key report.old }
{
    if let Some(told) = v.told {
        let record = Record {
            key,
            octets: told.octets,
            kind: told.kind,
            instruction: told.instruction,
            cause: told.cause,
            segments: told.segments,
        };
        receive_report::put_record(report, 0, record);
    }
}

// Performs a verdict on a segment of a key: the one function of the segment call that writes to what was lent.
pub fn perform(
    v: Verdict,
    place: usize,
    key: Key,
    store: &mut [u8],
    report: &mut [u8],
    octets: &[u8],
)
    requires { (place < place_count) × Fits v (length store.old) (length octets.now) }
    ensures store_after { store.new ≡ saved_by v place octets.now store.old }
    ensures report_after { report.new ≡ told_by v key report.old }
{
    save(&v, place, store, octets);
    tell(&v, key, report);
}

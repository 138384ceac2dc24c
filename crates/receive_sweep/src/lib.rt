// One sweep of a table's places: what is due of them, as the clock and a release lose it, and its records.
#![tactic(auto)]

ghost use Rattle.std.specs.Prelude.{◌≡◌, [], ◌∷◌, ◌+◌, ◌*◌, ◌≤◌, length};
ghost use Rattle.octets.specs.Splice.{Wrote};
ghost use Rattle.rules.specs.Numbers.{place_count};
ghost use Rattle.rules.specs.Records.{record_length, records_octets};
ghost use Rattle.rules.specs.Places.{first_from, is_at};
ghost use Rattle.rules.specs.Sweep.{loss_of};
ghost use Rattle.receive_sweep.specs.Sweeping as sweeping;
ghost use Rattle.receive_sweep.specs.Sweeping.{Test, test_of, cause_of, losses, swept_by};

use rules::{Place, Record, Swept, Table};

// Which sequences a sweep loses, and what cause its records give.
pub trait Due {
    // By what name the specs know it.
    ghost test: { Self → Test };

    // Whether a sweep loses what a place holds.
    fn is_due(&self, p: &Place) -> bool
        ensures { result ≡ test_of (test self.now) p.now };

    // The cause.
    fn cause(&self) -> u8
        ensures { result ≡ cause_of (test self.now) };
}

// Those too old at a time.
#[derive(Clone, Copy)]
pub struct Aged {
    pub time: u32,
    pub timer: u32,
}

impl Due for Aged {
    ghost test = { λ a. sweeping.Aged a.time a.timer };

    fn is_due(&self, p: &Place) -> bool {
        p.mark == 1 && self.timer <= table::elapsed(self.time, p.start)
    }

    fn cause(&self) -> u8 {
        6
    }
}

// Those of an association.
#[derive(Clone, Copy)]
pub struct Of(pub u16);

impl Due for Of {
    ghost test = { λ o. sweeping.Of o.0 };

    fn is_due(&self, p: &Place) -> bool {
        p.mark == 1 && p.key.association == self.0
    }

    fn cause(&self) -> u8 {
        7
    }
}

// A sequence's loss.
// As it was: a From would have to take a pair, the place and a cause.
fn lost(p: &Place, cause: u8) -> Record
    ensures { result ≡ loss_of cause p.now }
{
    let key = p.key;
    Record {
        key,
        octets: p.octets,
        kind: rules::LOST,
        instruction: p.instruction,
        cause,
        segments: p.segments,
    }
}

// Writes a place's loss after the n records before it.
fn put_loss<D: Due>(report: &mut [u8], n: u8, which: &D, p: &Place)
    ensures { Wrote report.old (record_length * n) (records_octets (loss_of (cause_of (D.test which.now)) p.now ∷ [])) report.new (record_length * (n + 1)) }
{
    let r = lost(p, which.cause());
    receive_report::put_record(report, rules::RECORD * usize::from(n), r);
}

// Loses what is due of a table, in place order, and sets its clock. What is not due is not touched. All records have one length.
// Inlined, since as a call its answer, with a table in it, is cleared and copied by callers that lose nothing.
#[inline(always)]
pub fn swept<D: Due>(t: Table, report: &mut [u8], time: u32, which: &D) -> Swept
    ensures value { result ≡ (swept_by (D.test which.now) time t report.old).answer }
    ensures report_after { report.new ≡ (swept_by (D.test which.now) time t report.old).report }
    ensures records_le_place_count { (result.records ≤ place_count) × (length (records_octets (losses (D.test which.now) t.places)) ≡ record_length * result.records) }
{
    let mut next = t;
    let mut n = 0;
    for p in &mut next.places {
        if which.is_due(p) {
            put_loss(report, n, which, p);
            *p = table::free_place();
            n += 1;
        }
    }
    next.clock = time;
    Swept {
        table: next,
        refusal: 0,
        records: n,
    }
}

// Whether a sweep loses anything. Where it does not, a call need not copy the table but for its answer.
pub fn any_due<D: Due>(t: &Table, which: &D) -> bool
    ensures { result ≡ is_at (first_from (test_of (D.test which.now)) t.now.places 0) }
{
    t.places.iter().any(|p| which.is_due(p))
}

// The clock and the release. Each call judges first, reading only, and writes once everything is judged.
#![tactic(auto)]

ghost use Rattle.std.specs.Prelude.{◌≡◌, [], ◌∷◌, true, not, ltb, length};
ghost use Rattle.refusals.specs.Numbers.{number_of, number_if};
ghost use Rattle.rules.specs.Refusals.{◌when◌, first};
ghost use Rattle.rules.specs.Sweep.{unswept, report_least};
ghost use Rattle.rules.specs.Summary.{billed, fits};
ghost use Rattle.rules.specs.Promises.{OfClock, OfRelease};
ghost use Rattle.receive_sweep.specs.Sweeping.{losses};
ghost use Rattle.summary.specs.Losses.{unless_full};
ghost use Rattle.receive_clock.specs.Clocking.{swept_at, passed_at, Billed};

use receive_sweep::{Aged, Due, Of};
use refusals::Refusal;
use rules::{Place, Swept, Table};

// The answer to a call that is refused: the table as it was.
// As it was: each call has an answer of its own type, and a refused one is built of that.
fn refused(t: &Table, r: Refusal) -> Swept
    ensures { result ≡ (unswept t.now [] (number_of r)).answer }
{
    Swept {
        table: *t,
        refusal: u8::from(r),
        records: 0,
    }
}

// The answer to a call that loses nothing: the table with its clock set.
fn passed(t: &Table, time: u32) -> Swept
    ensures { result ≡ passed_at time t.now }
{
    Swept {
        table: Table { clock: time, ..*t },
        refusal: 0,
        records: 0,
    }
}

// Bills what a sweep loses of a place, unless a total would become too large.
fn bill_due<D: Due>(m: &mut [u64; rules::SUMMARY], which: &D, p: &Place) -> Result<(), Refusal>
    ensures value { result ≡ unless_full (fits m.old (billed m.old (losses (D.test which.now) (p.now ∷ [])))) }
    ensures m_after { result ≡ Ok tt → m.new ≡ billed m.old (losses (D.test which.now) (p.now ∷ [])) }
{
    if which.is_due(p) {
        summary::bill_loss(
            m,
            p.key.association,
            u64::from(p.segments),
            u64::from(p.octets),
        )
    } else {
        Ok(())
    }
}

// Bills all that a sweep loses, each on top of those before it, so that several of one association are judged by their sum.
pub fn billed<D: Due>(
    places: &[Place; 16],
    which: &D,
    m: &mut [u64; rules::SUMMARY],
) -> Result<(), Refusal>
    ensures value { result ≡ unless_full (fits m.old (billed m.old (losses (D.test which.now) places.now))) }
    ensures m_after { result ≡ Ok tt → m.new ≡ billed m.old (losses (D.test which.now) places.now) }
{
    for p in places {
        bill_due(m, which, p)?;
    }
    Ok(())
}

// Whether the table with its summary and the report area will do for a sweep; else the first refusal.
fn judge(sound: bool, report: &[u8]) -> Result<(), Refusal>
    ensures { number_if result ≡ first (1 when not sound ∷ 3 when ltb (length report.now) report_least ∷ []) }
{
    if !sound {
        return Err(Refusal::Unsound);
    }
    if report.len() < rules::REPORT {
        return Err(Refusal::ReportShort);
    }
    Ok(())
}

// Judges a sweep and bills what it loses, and answers whether it loses anything; or refuses, and bills nothing. Whether something is due is asked first, so that no call between it and
// the table's arrival makes the compiler copy the table.
fn bill<D: Due>(
    t: &Table,
    m: &mut [u64; rules::SUMMARY],
    report: &[u8],
    time: u32,
    which: &D,
) -> Result<bool, Refusal>
    ensures { Billed (D.test which.now) time t.now m.old report.now result m.new }
{
    let due = receive_sweep::any_due(t, which);
    let idle = sound::look_idle(t);
    let is_sound = sound::is_sound(t, idle);
    let is_summed = sound::is_summed(t, m);
    judge(is_sound & is_summed, report)?;
    if 2147483648 <= table::elapsed(time, t.clock) {
        return Err(Refusal::StepBack);
    }
    if !due {
        return Ok(false);
    }
    // A copy: a loss that does not fit may come after others that do.
    let mut trial = *m;
    billed(&t.places, which, &mut trial)?;
    *m = trial;
    Ok(true)
}

// A sweep at a time: what both calls have in common. A release is at the table's own time, so its step is none.
fn sweep<D: Due>(
    t: &Table,
    m: &mut [u64; rules::SUMMARY],
    report: &mut [u8],
    time: u32,
    which: &D,
) -> Swept
    ensures value { result ≡ (swept_at (D.test which.now) time t.now m.old report.old).call.answer }
    ensures m_after { m.new ≡ (swept_at (D.test which.now) time t.now m.old report.old).summary }
    ensures report_after { report.new ≡ (swept_at (D.test which.now) time t.now m.old report.old).call.report }
{
    match bill(t, m, report, time, which) {
        Err(r) => refused(t, r),
        Ok(false) => passed(t, time),
        Ok(true) => receive_sweep::swept(*t, report, time, which),
    }
}

// As it was: parameters one by one, here and below, as the C interface takes them.
// Sets the clock, and loses every sequence that has grown too old.
pub fn clock(t: Table, m: &mut [u64; rules::SUMMARY], report: &mut [u8], time: u32) -> Swept
    ensures { OfClock t m.old report.old time result m.new report.new }
{
    let timer = t.timer;
    sweep(&t, m, report, time, &Aged { time, timer })
}

// Loses every sequence of an association.
pub fn release(
    t: Table,
    m: &mut [u64; rules::SUMMARY],
    report: &mut [u8],
    association: u16,
) -> Swept
    ensures { OfRelease t m.old report.old association result m.new report.new }
{
    sweep(&t, m, report, t.clock, &Of(association))
}

// The loopback: data is cut by the sender, each segment is handed to the receiver, and what comes back is the data.
#![tactic(auto)]

ghost use Rattle.std.specs.Prelude.{◌≡◌};
ghost use Rattle.rules.specs.Places.{is_at, lowest_free};
ghost use Rattle.refusals.specs.Numbers.{number_if};
ghost use Rattle.rules.specs.Refusals.{first};
ghost use Rattle.rules.specs.Summary.{row_for};
ghost use Rattle.rules.specs.Calls.{lending};
ghost use Rattle.loop_laps.specs.Laps.{asked};
ghost use Rattle.loopback.specs.Loopback.{is_roomy, count_checks, fit_checks, OfLoopback};

use loop_laps::{Course, Looped};
use refusals::Refusal;
use rules::{Decision, Request, Table};

// Nothing is done, and why.
// As it was: the number of a refusal, since the sender's answer (Sent, of the rules) brings one too.
fn refused(t: Table, number: u8) -> Looped
    ensures { result ≡ record { table = t; decision = Decision.Refused; length = 0; number = number } }
{
    Looped {
        table: t,
        decision: Decision::Refused,
        length: 0,
        number,
    }
}

// Whether a place is free.
fn has_vacant(t: &Table) -> bool
    ensures { result ≡ is_at (lowest_free t.now.places) }
{
    table::lowest_free(&t.places).is_some()
}

// Whether the association has a row, or can get one.
fn has_row(m: &[u64; rules::SUMMARY], association: u16) -> bool
    ensures { result ≡ is_at (row_for m.now association) }
{
    summary::row_for(m, association).is_some()
}

// Whether every total leaves room for all that a loopback may add.
fn is_roomy(m: &[u64; rules::SUMMARY]) -> bool
    ensures { result ≡ is_roomy m.now }
{
    m[128..].iter().all(|n| *n <= rules::TOTAL - 65536)
}

// Whether the summary can count it; else 21 or 22.
fn judge_count(m: &[u64; rules::SUMMARY], association: u16) -> Result<(), Refusal>
    ensures { number_if result ≡ first (count_checks m.now association) }
{
    if !has_row(m, association) {
        return Err(Refusal::NoRowUnused);
    }
    if !is_roomy(m) {
        return Err(Refusal::TotalLarge);
    }
    Ok(())
}

// Whether the table, the summary and the areas will do; else the first condition that fails.
fn judge(
    t: &Table,
    m: &[u64; rules::SUMMARY],
    association: u16,
    store: usize,
    report: usize,
    area: usize,
) -> Result<(), Refusal>
    ensures { number_if result ≡ first (fit_checks t.now m.now association store report area) }
{
    let both = sound::are_sound(t, m);
    if !both.summary {
        return Err(Refusal::Unsound);
    }
    lent::areas(both.table, store, report, rules::REPORT_ARRIVAL)?;
    if area < rules::PARAMETER {
        return Err(Refusal::AreaShort);
    }
    if !has_vacant(t) {
        return Err(Refusal::NoPlaceFree);
    }
    judge_count(m, association)
}

// As it was: table, summary, store and areas go one by one, as the public calls take them from C.
// Cuts the data, receives each segment at the same table, and answers with the last one's decision; or refuses, and nothing is changed.
pub fn loopback(
    t: Table,
    m: &mut [u64; rules::SUMMARY],
    q: Request,
    association: u16,
    origin: &[u8],
    destination: &[u8],
    whole: &[u8],
    area: &mut [u8],
    store: &mut [u8],
    report: &mut [u8],
) -> Looped
    ensures { OfLoopback (asked t q association origin.now destination.now whole.now) m.old store.old (lending report.old area.old) result m.new store.new (lending report.new area.new) }
{
    if let Err(r) = judge(&t, m, association, store.len(), report.len(), area.len()) {
        return refused(t, u8::from(r));
    }
    let s = sender::sending(
        t,
        loop_laps::for_segment(q, 0),
        origin,
        destination,
        whole,
        area,
    );
    if s.refusal != 0 {
        return refused(t, s.refusal);
    }
    let first = loop_laps::receive(t, association, s.length, area, m, store, report);
    let c = Course {
        table: t,
        request: q,
        association,
        origin,
        destination,
        whole,
    };
    loop_laps::others(&c, s.count, first, area, m, store, report)
}

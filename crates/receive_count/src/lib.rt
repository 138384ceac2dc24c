// What a segment adds to the summary: judged by the verdict on it, reading only; then written.
#![tactic(auto)]

ghost use Rattle.std.specs.Prelude.{◌≡◌, true, ◌<◌};
ghost use Rattle.rules.specs.Summary.{column_of};
ghost use Rattle.rules.specs.declared.Key.{Key};
ghost use Rattle.receive_count.specs.Counting.{room_for, added_in, sums_by, OfCount};

use receive_perform::{Told, Verdict};
use refusals::Refusal;

// The column of the segments that a record of a kind counts. The next column has its octets.
// As it was: a record's kind is a number of the rules (Record.kind, column_of).
fn column(kind: u8) -> usize
    ensures { result ≡ column_of kind }
{
    if kind == rules::DELIVERED { 4 } else { 6 }
}

// Whether a row's totals have room for a segment of n octets, and for its record where it has one.
// As it was: summary::has_room and summary::add require row < 64, and take a u64, which std makes of no usize but by `as`.
fn has_room(m: &[u64; rules::SUMMARY], row: usize, n: usize, told: Option<Told>) -> bool
    requires { row < 64 }
    ensures { result ≡ room_for m.now row n told }
{
    let taken = summary::has_room(m, 2, row, 1, n as u64);
    match told {
        None => taken,
        Some(r) => {
            let segments = u64::from(r.segments);
            taken & summary::has_room(m, column(r.kind), row, segments, u64::from(r.octets))
        }
    }
}

// Counts it there.
// As it was: as has_room.
fn add(m: &mut [u64; rules::SUMMARY], row: usize, n: usize, told: Option<Told>)
    requires { (row < 64) × (room_for m.old row n told ≡ true) }
    ensures { m.new ≡ added_in m.old row n told }
{
    summary::add(m, 2, row, 1, n as u64);
    if let Some(r) = told {
        let segments = u64::from(r.segments);
        summary::add(m, column(r.kind), row, segments, u64::from(r.octets));
    }
}

// The row in which a segment of n octets of an association is counted, which is taken otherwise; or the summary's refusal.
pub fn judge(
    m: &[u64; rules::SUMMARY],
    association: u16,
    n: usize,
    v: Verdict,
) -> Result<usize, Refusal>
    ensures { OfCount m.now association n v result }
{
    let row = summary::row_for(m, association).ok_or(Refusal::NoRowUnused)?;
    if has_room(m, row, n, v.told) {
        Ok(row)
    } else {
        Err(Refusal::TotalLarge)
    }
}

// Counts a segment in the row that was judged to have room: it is taken, and its record is billed.
pub fn perform(m: &mut [u64; rules::SUMMARY], row: usize, association: u16, n: usize, v: Verdict)
    requires { OfCount m.old association n v (Ok row) }
    ensures { (key : Key) → key.association ≡ association → m.new ≡ sums_by m.old association n v key }
{
    summary::seat(m, row, association);
    add(m, row, n, v.told);
}

// A summary, which its caller lends: 64 rows of 8 numbers, column by column. The marks are at 0 + i, as the rules have it: a sum does not compute away in a proof.
#![tactic(auto)]

ghost use Rattle.std.specs.Prelude.{if◌then◌else◌, ◌≡◌, true, ◌&&◌, ℕ, ◌+◌, ◌<◌, length, Some};
ghost use Rattle.rules.specs.Summary.{number_at, row_of, unused_row, row_for, tally, seat, total_fits, fits, empty_summary};
ghost use Rattle.summary.specs.Losses.{loss_in, unless_full};

use refusals::Refusal;

// The row of an association. The mark is asked second: few rows have the name.
// As it was: the summary is one array of 8 columns across the C interface, and number_at of rules counts in it.
pub fn row_of(m: &[u64; rules::SUMMARY], association: u16) -> Option<usize>
    ensures value { result ≡ row_of m.now association }
    ensures by_index { (i : ℕ) → result ≡ Some i → i < 64 }
{
    let name = u64::from(association);
    for i in 0..rules::ROWS {
        if (m[64 + i] == name) & (m[0 + i] == 1) {
            return Some(i);
        }
    }
    None
}

// The lowest row that is not used.
// As it was: the columns, as row_of.
fn unused_row(m: &[u64; rules::SUMMARY]) -> Option<usize>
    ensures { result ≡ unused_row m.now }
{
    for row in 0..rules::ROWS {
        if m[0 + row] == 0 {
            return Some(row);
        }
    }
    None
}

// The row in which a segment of an association is taken.
pub fn row_for(m: &[u64; rules::SUMMARY], association: u16) -> Option<usize>
    ensures value { result ≡ row_for m.now association }
    ensures by_index { (i : ℕ) → result ≡ Some i → i < 64 }
{
    row_of(m, association).or_else(|| unused_row(m))
}

// Whether a total may have so much added.
fn may_grow(number: u64, added: u64) -> bool
    ensures { result ≡ total_fits number (number + added) }
{
    let sum = number.checked_add(added);
    added == 0 || sum.is_some_and(|n| n <= rules::TOTAL)
}

// Whether so many segments and octets more fit, in a column and the next.
// As it was: column and row, as number_at of rules names them, and the sums that total_fits is asked of.
pub fn has_room(
    m: &[u64; rules::SUMMARY],
    column: usize,
    row: usize,
    segments: u64,
    octets: u64,
) -> bool
    requires { (column < 7) × (row < 64) }
    ensures { result ≡ (total_fits (number_at m.now column row) (number_at m.now column row + segments) && total_fits (number_at m.now (column + 1) row) (number_at m.now (column + 1) row + octets)) }
{
    may_grow(m[64 * column + row], segments) & may_grow(m[64 * (column + 1) + row], octets)
}

// The sum, where it fits.
fn sum_of(number: u64, added: u64) -> u64
    requires { total_fits number (number + added) ≡ true }
    ensures { result ≡ number + added }
{
    number + added
}

// So many segments and octets more.
// As it was: column, row and sums, as tally of rules names them.
pub fn add(m: &mut [u64; rules::SUMMARY], column: usize, row: usize, segments: u64, octets: u64)
    requires column_bound { (column < 7) × (row < 64) }
    requires octets_value { (total_fits (number_at m.old column row) (number_at m.old column row + segments) && total_fits (number_at m.old (column + 1) row) (number_at m.old (column + 1) row + octets)) ≡ true }
    ensures { m.new ≡ tally m.old column row segments octets }
{
    let sum = sum_of(m[64 * column + row], segments);
    let next = sum_of(m[64 * (column + 1) + row], octets);
    m[64 * column + row] = sum;
    m[64 * (column + 1) + row] = next;
}

// A row is used for an association.
// As it was: the columns, as row_of.
pub fn seat(m: &mut [u64; rules::SUMMARY], row: usize, association: u16)
    requires { row < 64 }
    ensures { m.new ≡ seat m.old row association }
{
    m[0 + row] = 1;
    m[64 + row] = u64::from(association);
}

// A loss in a row, unless a total would become too large.
fn lose_in(
    m: &mut [u64; rules::SUMMARY],
    row: usize,
    segments: u64,
    octets: u64,
) -> Result<(), Refusal>
    requires { row < 64 }
    ensures value { result ≡ unless_full (fits m.old (tally m.old 6 row segments octets)) }
    ensures m_after { m.new ≡ (if fits m.old (tally m.old 6 row segments octets) then tally m.old 6 row segments octets else m.old) }
{
    if !has_room(m, 6, row, segments, octets) {
        return Err(Refusal::TotalLarge);
    }
    add(m, 6, row, segments, octets);
    Ok(())
}

// A loss is billed to an association, unless a total would become too large.
pub fn bill_loss(
    m: &mut [u64; rules::SUMMARY],
    association: u16,
    segments: u64,
    octets: u64,
) -> Result<(), Refusal>
    ensures value { result ≡ unless_full (fits m.old (loss_in m.old association segments octets)) }
    ensures m_after { m.new ≡ (if fits m.old (loss_in m.old association segments octets) then loss_in m.old association segments octets else m.old) }
{
    match row_of(m, association) {
        Some(row) => lose_in(m, row, segments, octets),
        None => Ok(()),
    }
}

// No row is used.
pub fn empty(m: &mut [u64; rules::SUMMARY])
    ensures { m.new ≡ empty_summary }
{
    *m = [0; rules::SUMMARY];
}

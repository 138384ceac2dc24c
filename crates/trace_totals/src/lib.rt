// The lines of the program totals, written into a lent area: an opening's heading, and a line for each used row of a summary.
#![tactic(auto)]

ghost use Rattle.std.specs.Prelude.{◌++◌, ◌+◌, ◌≤◌, ◌<◌};
ghost use Rattle.rules.specs.Lines.{stop_if};
ghost use Rattle.rules.specs.Totalling.{heading_line, row_line, row_lines};
ghost use Rattle.trace_lines.specs.Writers.{Writes};
ghost use Rattle.trace_totals.specs.Pairs.{pair_of};

use trace_lines::Writer;

// A row's numbers in a column and the next, each behind a space.
// As it was: the summary is one array of 8 columns across the C interface, and number_at of rules counts in it.
fn put_pair(w: &mut Writer<'_>, m: &[u64; rules::SUMMARY], column: usize, row: usize)
    requires { (w.old.at ≤ 50000) × ((column < 7) × (row < 64)) }
    ensures wrote { Writes w.old (pair_of m.now column row) w.new }
    ensures upper_bound { w.new.at ≤ w.old.at + 42 }
{
    w.put_field(m[64 * column + row]);
    w.put_field(m[64 * (column + 1) + row]);
}

// A row's line: its association, then segments and octets, taken, delivered, lost.
fn put_row(w: &mut Writer<'_>, m: &[u64; rules::SUMMARY], row: usize)
    requires { (w.old.at ≤ 20000) × (row < 64) }
    ensures wrote { Writes w.old (row_line m.now row) w.new }
    ensures upper_bound { w.new.at ≤ w.old.at + 147 }
{
    w.put_number(m[64 + row]);
    put_pair(w, m, 2, row);
    put_pair(w, m, 4, row);
    put_pair(w, m, 6, row);
    w.put_octet(10);
}

// The lines of the used rows.
pub fn put_rows(w: &mut Writer<'_>, m: &[u64; rules::SUMMARY])
    requires { w.old.at ≤ 1000 }
    ensures wrote { Writes w.old (row_lines m.now) w.new }
    ensures upper_bound { w.new.at ≤ w.old.at + 9408 }
{
    for row in 0..rules::ROWS {
        if m[row] == 1 {
            put_row(w, m, row);
        }
    }
}

// An opening's heading: its number among the events, and its refusal or 0.
pub fn put_heading(w: &mut Writer<'_>, number: u64, refusal: u8)
    requires { w.old.at ≤ 20000 }
    ensures wrote { Writes w.old (heading_line number refusal) w.new }
    ensures upper_bound { w.new.at ≤ w.old.at + 50 }
{
    w.put_word(b"opening");
    w.put_field(number);
    w.put_field(u64::from(refusal));
    w.put_octet(10);
}

// The end: the lines of the used rows, and where the trace stops, the line that says so.
pub fn put_end(w: &mut Writer<'_>, m: &[u64; rules::SUMMARY], stops: bool)
    requires { w.old.at ≤ 1000 }
    ensures wrote { Writes w.old (row_lines m.now ++ stop_if «stops») w.new }
    ensures upper_bound { w.new.at ≤ w.old.at + 9413 }
{
    put_rows(w, m);
    w.put_end(stops);
}

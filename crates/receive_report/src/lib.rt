// Writing a record to a report area.
#![tactic(auto)]

ghost use Rattle.std.specs.Prelude.{◌≡◌, ◌≤◌, length, take};
ghost use Rattle.octets.specs.Splice.{splice};
ghost use Rattle.rules.specs.Records.{record_length, Filled, recorded, record_octets};

use rules::{Address, Record};

// A record's octets before its addresses.
#[tactic(auto, unfolding(rules::specs::Records::record_octets))]
fn head(r: &Record) -> [u8; 11]
    ensures { result ≡ take 11 (record_octets r.now) }
{
    let [association, association_low] = octets::octets2(r.key.association);
    let [context, context_low] = octets::octets2(r.key.context.0);
    let [octets, octets_low] = octets::octets2(r.octets);
    [
        r.kind,
        association,
        association_low,
        context,
        context_low,
        r.key.reference.0,
        r.instruction,
        r.cause,
        r.segments,
        octets,
        octets_low,
    ]
}

// Writes an address to a report area from a place on, as far as it reaches: its length, and its octets.
// As it was: all 20 octets follow the length here, and in a parameter only as many as it says; what is common, an area from a place on, is octets::put_at.
fn put_address(report: &mut [u8], at: usize, a: &Address)
    requires { at ≤ 65568 }
    ensures report_after { report.new ≡ splice report.old at (recorded a.now) }
    ensures filled { Filled a.now }
{
    octets::put_at(report, at, &[a.length]);
    octets::put_at(report, at + 1, &a.octets);
}

// Writes a record's octets to a report area from a place on, as far as it reaches.
// As it was: the clause report_after names report and at, and at ≤ 65536 is what it requires.
pub fn put_record(report: &mut [u8], at: usize, r: Record)
    requires { at ≤ 65536 }
    ensures report_after { report.new ≡ splice report.old at (record_octets r) }
    ensures r_len { length (record_octets r) ≡ record_length }
{
    octets::put_at(report, at, &head(&r));
    put_address(report, at + 11, &r.key.origin);
    put_address(report, at + 32, &r.key.destination);
}

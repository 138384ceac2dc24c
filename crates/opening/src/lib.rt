// Opening a table.
#![tactic(auto)]

ghost use Rattle.std.specs.Prelude.{◌≡◌, ◌∷◌, ◌+◌, ◌≤◌, length, take, drop, IfOk};
ghost use Rattle.rules.specs.General.{every};
ghost use Rattle.rules.specs.Registry.{is_entry, entries_of};
ghost use Rattle.rules.specs.Refusals.{first};
ghost use Rattle.rules.specs.Opening.{no_entry, registry_with, empty_table, opening_checks, unopened_by};
ghost use Rattle.refusals.specs.Numbers.{number_of, number_if};
ghost use Rattle.rules.specs.Promises.{OfOpening};

use refusals::Refusal;
use rules::{Context, Entry, Opened, Table};

// An entry with nothing in it: all zero.
// As it was: all zero is what the rule says (no_entry), field for field; a Default would say it nowhere.
fn no_entry() -> Entry
    ensures { result ≡ no_entry }
{
    Entry {
        context: Context(0),
        kind: 0,
    }
}

// The entry whose record, kind and context, begins at an index.
// As it was: the clause entries_of (drop at ..) names both.
fn entry_at(octets: &[u8], at: usize) -> Entry
    requires { at + 3 ≤ length octets.now }
    ensures { entries_of (drop at octets.now) ≡ result ∷ entries_of (drop (at + 3) octets.now) }
{
    let kind = octets[at];
    let context = Context(u16::from_be_bytes([octets[at + 1], octets[at + 2]]));
    Entry { context, kind }
}

// The entries that octets list, at most 8 of them; the others are unused.
fn entries_of(octets: &[u8]) -> [Entry; 8]
    requires { length octets.now ≤ 24 }
    ensures { result ≡ (empty_table (entries_of octets.now) 0 0).registry }
{
    let unused = no_entry();
    let mut entries = [unused; 8];
    for i in 0..octets.len() / 3 {
        entries[i] = entry_at(octets, 3 * i);
    }
    entries
}

// Whether the first count entries are such as may be listed.
fn all_entries(entries: &[Entry; 8], count: usize) -> bool
    requires { count ≤ 8 }
    ensures { result ≡ every is_entry (take count entries.now) }
{
    entries[..count].iter().all(|e| registry::is_entry(*e))
}

// A table with no open place.
fn empty_table(entries: [Entry; 8], timer: u32, clock: u32) -> Table
    ensures { result ≡ empty_table entries timer clock }
{
    Table {
        places: [table::free_place(); 16],
        registry: entries,
        timer,
        clock,
    }
}

// The answer with that table. Made here whether refused or not, it goes to its caller at once, and is not copied.
fn answer(entries: [Entry; 8], timer: u32, clock: u32, refusal: u8) -> Opened
    ensures { result ≡ record { table = empty_table entries timer clock; refusal = refusal } }
{
    Opened {
        table: empty_table(entries, timer, clock),
        refusal,
    }
}

// The unopened table, all zero, and why.
// As it was: a refused for each answer: the answers of the calls differ in all but the number.
fn refused(refusal: Refusal) -> Opened
    ensures { result ≡ unopened_by (number_of refusal) }
{
    answer([no_entry(); 8], 0, 0, u8::from(refusal))
}

// The registry that octets list, as a table has it, where T is in range. Not inlined: else each entry's fields are stored in the answer by themselves, and who reads the table next waits for them.
#[inline(never)]
fn listed(registry: &[u8], timer: u32) -> Result<[Entry; 8], Refusal>
    ensures first { number_if result ≡ first (opening_checks registry.now timer) }
    ensures entries { IfOk result (λ es. (es ≡ registry_with (entries_of registry.now)) × (length (entries_of registry.now) ≤ 8)) }
{
    let timed = (1 <= timer) & (timer <= 1000000);
    if !timed {
        return Err(Refusal::TimerBad);
    }
    let length = registry.len();
    let whole = (length % 3 == 0) & (length <= 24);
    if !whole {
        return Err(Refusal::RegistryBad);
    }
    let entries = entries_of(registry);
    let known = all_entries(&entries, length / 3);
    let apart = registry::all_apart(&entries);
    if !(known & apart) {
        return Err(Refusal::RegistryBad);
    }
    Ok(entries)
}

// Opens a table. Refused or not, the summary has no used row afterwards.
// As it was: the public call: the arguments are the paper's and C's, and so is the promise (OfOpening).
pub fn opening(m: &mut [u64; rules::SUMMARY], registry: &[u8], timer: u32, clock: u32) -> Opened
    ensures { OfOpening registry.now timer clock result m.new }
{
    summary::empty(m);
    match listed(registry, timer) {
        Ok(entries) => answer(entries, timer, clock, 0),
        Err(refusal) => refused(refusal),
    }
}

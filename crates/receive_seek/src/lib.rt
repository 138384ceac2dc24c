// A parameter read, and the place that it is about.
#![tactic(auto)]

ghost use Rattle.std.specs.Prelude.{◌≡◌, ◌≤◌, ◌<◌};
ghost use Rattle.rules.specs.Numbers.{address_most, place_count};
ghost use Rattle.rules.specs.Receiving.{address_at, key_of};
ghost use Rattle.param_read.specs.Reading.{reading};
ghost use Rattle.table.specs.Seeking.{place_in};
ghost use Rattle.receive_seek.specs.Seeking.{Seeks};

use rules::{Address, Fault, Fields, Key, Place, Span, Table};
use table::Search;

// A parameter's reading, its key, and the place that it is about.
#[derive(Clone, Copy)]
pub struct Sought {
    pub reading: Result<Fields, Fault>,
    pub key: Key,
    pub search: Search,
}

// An address of a parameter, copied and zero filled.
fn address_at(s: &[u8], a: Span) -> Address
    requires { a.length ≤ address_most }
    ensures { result ≡ address_at s.now a }
{
    let mut octets = [0; rules::ADDRESS];
    octets::put(&mut octets, octets::part(s, a.at, usize::from(a.length)));
    Address {
        octets,
        length: a.length,
    }
}

// The key of a segment's sequence.
fn key_of(association: u16, s: &[u8], f: &Fields) -> Key
    requires { (f.now.origin.length ≤ address_most) × (f.now.destination.length ≤ address_most) }
    ensures { result ≡ key_of association s.now f.now }
{
    Key {
        association,
        context: f.heading.context,
        origin: address_at(s, f.origin),
        destination: address_at(s, f.destination),
        reference: f.heading.reference,
    }
}

// A parameter that touches no place.
fn nowhere(reading: Result<Fields, Fault>, key: Key) -> Sought
    ensures { result ≡ record { reading = reading; key = key; search = Search.Nowhere } }
{
    Sought {
        reading,
        key,
        search: Search::Nowhere,
    }
}

// Reads a parameter, and seeks the place that it is about. An unsegmented one touches no place.
// As it was: the clauses reading_value and seeks name t, association and s.
pub fn seek(t: &Table, association: u16, s: &[u8]) -> Sought
    ensures reading_value { (result.reading ≡ reading t.now.registry s.now) × (place_in result.search < place_count) }
    ensures seeks { (f : Fields) → result.reading ≡ Ok f → Seeks t.now (key_of association s.now f) f.heading result }
{
    let reading = param_read::read(&t.registry, s);
    match reading {
        Err(_) => nowhere(reading, table::free_place().key),
        Ok(f) => {
            let key = key_of(association, s, &f);
            let alone = f.heading.new && f.heading.remaining.0 == 0;
            if alone {
                return nowhere(reading, key);
            }
            let search = table::search_for(&t.places, &key);
            Sought {
                reading,
                key,
                search,
            }
        }
    }
}

// Places of a table: which has a key, which is free; and ages.
#![tactic(auto)]

ghost use Rattle.std.specs.Prelude.{◌≡◌};
ghost use Rattle.rules.specs.Numbers.{elapsed};
ghost use Rattle.rules.specs.Places.{same_key, holds, place_of, lowest_free, free_place};
ghost use Rattle.table.specs.Seeking.{same_addresses, place_in, is_found, is_nowhere, Points};

use rules::{Address, Context, Key, Place, Reference, Remaining};

// The new time less the old, modulo 2^32: an age, and a step of the clock.
pub fn elapsed(new: u32, old: u32) -> u32
    ensures { result ≡ elapsed new old }
{
    std::num::wrapping_sub_u32(new, old)
}

// Whether two keys are the same: nothing else compares keys.
#[tactic(auto, using(crate::proofs::Seeking::key_by_fields))]
pub fn same_key(a: &Key, b: &Key) -> bool
    ensures { result ≡ same_key a.now b.now }
{
    a == b
}

// The place that a key's segment is about: its own, where the key is open, or else the lowest free one, where one is free.
#[derive(Clone, Copy)]
pub enum Search {
    Open(usize),
    Vacant(usize),
    Nowhere,
}

impl Search {
    // That place; the first one stands for none.
    pub fn at(self) -> usize
        ensures { result ≡ place_in self }
    {
        match self {
            Search::Open(at) => at,
            Search::Vacant(at) => at,
            Search::Nowhere => 0,
        }
    }

    // Whether the key is open there.
    pub fn is_found(self) -> bool
        ensures { result ≡ is_found self }
    {
        matches!(self, Search::Open(_))
    }

    // Whether there is none.
    pub fn is_nowhere(self) -> bool
        ensures { result ≡ is_nowhere self }
    {
        matches!(self, Search::Nowhere)
    }
}

// Whether two keys have the same octets of addresses.
fn same_addresses(a: &Key, b: &Key) -> bool
    ensures { result ≡ same_addresses a.now b.now }
{
    (a.origin.octets == b.origin.octets) & (a.destination.octets == b.destination.octets)
}

// Whether a place is open with a key. Marks, numbers and lengths are compared first, and octets of addresses only where all of them agree.
#[tactic(auto, using(crate::proofs::Seeking::decided, crate::proofs::Seeking::unlike))]
fn holds(p: &Place, k: &Key) -> bool
    ensures { result ≡ holds k.now p.now }
{
    let alike = (p.mark == 1)
        & (p.key.association == k.association)
        & (p.key.context.0 == k.context.0)
        & (p.key.reference.0 == k.reference.0)
        & (p.key.origin.length == k.origin.length)
        & (p.key.destination.length == k.destination.length);
    alike && same_addresses(&p.key, k)
}

// The place that is open with a key.
fn place_of(places: &[Place; 16], k: &Key) -> Option<usize>
    ensures { result ≡ place_of k.now places.now }
{
    places.iter().position(|p| holds(p, k))
}

// The place that is open with a key, or else the lowest free one.
pub fn search_for(places: &[Place; 16], k: &Key) -> Search
    ensures { Points (place_of k.now places.now) (lowest_free places.now) result }
{
    if let Some(at) = place_of(places, k) {
        return Search::Open(at);
    }
    match lowest_free(places) {
        Some(at) => Search::Vacant(at),
        None => Search::Nowhere,
    }
}

// The lowest free place.
pub fn lowest_free(places: &[Place; 16]) -> Option<usize>
    ensures { result ≡ lowest_free places.now }
{
    places.iter().position(|p| p.mark == 0)
}

// A place with nothing in it: all zero.
pub fn free_place() -> Place
    ensures { result ≡ free_place }
{
    Place {
        key: Key {
            association: 0,
            context: Context(0),
            origin: Address {
                octets: [0; 20],
                length: 0,
            },
            destination: Address {
                octets: [0; 20],
                length: 0,
            },
            reference: Reference(0),
        },
        octets: 0,
        start: 0,
        mark: 0,
        instruction: 0,
        remaining: Remaining(0),
        segments: 0,
    }
}

// Whether a table is sound: any bits may be handed over.
#![tactic(auto)]

ghost use Rattle.std.specs.Prelude.{◌≡◌, map};
ghost use Rattle.rules.specs.General.{every, every_two, those};
ghost use Rattle.rules.specs.Places.{is_open};
ghost use Rattle.sound_rows.specs.Listing.{is_other};
ghost use Rattle.sound_free.specs.Idle.{sound_if_idle, is_shut};
ghost use Rattle.sound.specs.Parts.{open_part};
ghost use Rattle.sound.specs.Seated.{association_of};
ghost use Rattle.rules.specs.Summary.{summary_sound};
ghost use Rattle.rules.specs.Soundness.{places_apart, sound};

use arrayvec::ArrayVec;
use lists::every_two;
use rules::{Place, Table};

// Whether two places are not open with one key.
// As it was: of places with their marks; registry's are entries, and the rules have a test for each.
fn are_apart(p: &Place, q: &Place) -> bool
    ensures { result ≡ places_apart p.now q.now }
{
    let both = (p.mark == 1) & (q.mark == 1);
    !(both && table::same_key(&p.key, &q.key))
}

// Whether no two numbers are the same.
fn all_differ(digests: &[u64]) -> bool
    ensures { result ≡ every_two is_other digests.now }
{
    every_two(digests, |d, e| *e != *d)
}

// Whether the open places are sound, and no two of them share a key. Where their digests differ their keys do, and no key need be looked at.
fn open_sound(t: &Table) -> bool
    ensures { result ≡ open_part t.now }
{
    let seen = sound_open::look_over(&t.places, &t.registry, t.timer, t.clock);
    if all_differ(&seen.digests[..seen.open]) {
        seen.sound
    } else {
        seen.sound & every_two(&t.places, are_apart)
    }
}

// What is seen of the places that are not open: whether each is sound, and whether they are all that there are.
#[derive(Clone, Copy)]
pub struct Idle {
    pub sound: bool,
    pub all: bool,
}

// By a call of its own the places that are not open are read where they are: together with the open ones they would be copied.
pub fn look_idle(t: &Table) -> Idle
    ensures { (result.sound ≡ every sound_if_idle t.now.places) × (result.all ≡ every is_shut t.now.places) }
{
    let sound = sound_free::idle_sound(&t.places);
    let all = sound_free::none_open(&t.places);
    Idle { sound, all }
}

// Whether a table is sound, by what was seen of the places that are not open.
pub fn is_sound(t: &Table, idle: Idle) -> bool
    requires { (idle.sound ≡ every sound_if_idle t.now.places) × (idle.all ≡ every is_shut t.now.places) }
    ensures { result ≡ sound t.now }
{
    let timed = (1 <= t.timer) & (t.timer <= 1000000);
    let listed = registry::is_sound(&t.registry);
    let rest = timed & listed & idle.sound;
    if idle.all { rest } else { rest & open_sound(t) }
}

// The associations of the open places, one after the other.
fn names_of(places: &[Place; 16]) -> ArrayVec<u16, 16>
    ensures { result.items ≡ map association_of (those is_open places.now) }
{
    let mut names = ArrayVec::new();
    for p in places {
        if p.mark == 1 {
            names.push(p.key.association);
        }
    }
    names
}

// Whether a summary is sound beside a table.
pub fn is_summed(t: &Table, m: &[u64; rules::SUMMARY]) -> bool
    ensures { result ≡ summary_sound m.now t.now.places }
{
    let names = names_of(&t.places);
    sound_rows::is_sound(m, names.as_slice())
}

// Whether a table, and a summary beside it, is sound.
#[derive(Clone, Copy)]
pub struct Soundness {
    pub table: bool,
    pub summary: bool,
}

// Both in one call.
pub fn are_sound(t: &Table, m: &[u64; rules::SUMMARY]) -> Soundness
    ensures { (result.table ≡ sound t.now) × (result.summary ≡ summary_sound m.now t.now.places) }
{
    let idle = look_idle(t);
    let table = is_sound(t, idle);
    let summary = is_summed(t, m);
    Soundness { table, summary }
}

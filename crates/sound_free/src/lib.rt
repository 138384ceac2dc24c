// Whether the places that are not open are sound: by weights. The weight of a place is all its octets and numbers, read as numbers of four octets and joined by `|`: it is 0
// exactly where all of them are.
#![tactic(auto)]

ghost use Rattle.std.specs.Prelude.{◌≡◌, ◌&&◌, ◌≤◌, eqb};
ghost use Rattle.rules.specs.General.{every};
ghost use Rattle.rules.specs.Places.{is_free};
ghost use Rattle.rules.specs.Soundness.{is_zero, address_zero, free_sound};
ghost use Rattle.sound_free.specs.Idle.{sound_if_idle, is_shut};
ghost use Rattle.sound_free.specs.Weights.{word_of, word_most};

use rules::{Address, Place};

// Four octets as one number, the first the least: where they stand in a row they are read at once.
// As it was: four octets by name: of an array that is handed over no proof learns that they are below 256.
pub fn word(a: u8, b: u8, c: u8, d: u8) -> u64
    ensures value { result ≡ word_of a b c d }
    ensures result_value { eqb result 0 ≡ (is_zero a && is_zero b && is_zero c && is_zero d) }
    ensures upper_bound { result ≤ word_most }
{
    u64::from(u32::from_le_bytes([a, b, c, d]))
}

// What an address weighs: 0 where it is all zero.
// As it was: octets by name, as word asks for them.
fn address_weight(a: &Address) -> u64
    ensures { eqb result 0 ≡ address_zero a.now }
{
    let b = &a.octets;
    u64::from(a.length)
        | word(b[0], b[1], b[2], b[3])
        | word(b[4], b[5], b[6], b[7])
        | word(b[8], b[9], b[10], b[11])
        | word(b[12], b[13], b[14], b[15])
        | word(b[16], b[17], b[18], b[19])
}

// What a place weighs: 0 where it is free, and all zero.
fn weight(p: &Place) -> u64
    ensures { eqb result 0 ≡ (is_free p.now && free_sound p.now) }
{
    let names = u64::from(p.key.association) + 65536 * u64::from(p.key.context.0);
    let more = u64::from(p.key.reference.0) | u64::from(p.octets);
    let rest = word(p.mark, p.instruction, p.remaining.0, p.segments);
    let numbers = names | more | u64::from(p.start) | rest;
    numbers | address_weight(&p.key.origin) | address_weight(&p.key.destination)
}

// What a place weighs where it is not open.
fn idle_weight(p: &Place) -> u64
    ensures { eqb result 0 ≡ sound_if_idle p.now }
{
    let w = weight(p);
    if p.mark == 1 { 0 } else { w }
}

// What places weigh that are not open. All sixteen go through one loop: two loops of eight are unrolled, and take half as many instructions again.
#[inline(always)]
fn idle_weights(places: &[Place]) -> u64
    ensures { eqb result 0 ≡ every sound_if_idle places.now }
{
    let mut sum = 0;
    for p in places {
        sum |= idle_weight(p);
    }
    sum
}

// Whether each place that is not open is all zero.
pub fn idle_sound(places: &[Place; 16]) -> bool
    ensures { result ≡ every sound_if_idle places.now }
{
    idle_weights(places) == 0
}

// Whether no place is open.
pub fn none_open(places: &[Place; 16]) -> bool
    ensures { result ≡ every is_shut places.now }
{
    places.iter().all(|p| p.mark != 1)
}

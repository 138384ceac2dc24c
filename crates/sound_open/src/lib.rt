// Whether the open places are sound, and their digests.
#![tactic(auto)]

ghost use Rattle.std.specs.Prelude.{◌≡◌, [], ◌∷◌, map, ◌-◌, ◌*◌, ◌≤◌, take, drop};
ghost use Rattle.rules.specs.General.{every, those};
ghost use Rattle.rules.specs.Places.{is_open};
ghost use Rattle.rules.specs.Soundness.{is_zero, address_sound, open_sound};
ghost use Rattle.sound_free.specs.Weights.{word_most};
ghost use Rattle.sound_open.specs.Digest.{head_of, digest};
ghost use Rattle.sound_open.specs.Filled.{most_of, capped};
ghost use Rattle.sound_open.specs.Open.{sound_if_open};

use rules::{Address, Entry, Place};

// The largest number that n octets can make of those from index at on, eight at most.
fn most(n: u8, at: u8) -> u64
    ensures { result ≡ most_of (capped (n - at)) }
{
    match n.saturating_sub(at) {
        0 => 0,
        1 => 255,
        2 => 65535,
        3 => 16777215,
        4 => 4294967295,
        5 => 1099511627775,
        6 => 281474976710655,
        7 => 72057594037927935,
        8..=255 => 18446744073709551615,
    }
}

// Whether of an address with n octets the eight from index at on are zero behind the n: as one number they are not too large.
// As it was: the eight have a name each, since of the elements of an array that is handed over no proof learns that they are below 256.
fn zero_behind(a: u8, b: u8, c: u8, d: u8, e: u8, f: u8, g: u8, h: u8, n: u8, at: u8) -> bool
    ensures { result ≡ every is_zero (drop (n - at) (a ∷ b ∷ c ∷ d ∷ e ∷ f ∷ g ∷ h ∷ [])) }
{
    u64::from_le_bytes([a, b, c, d, e, f, g, h]) <= most(n, at)
}

// Whether an address is zero behind its first n octets. Eight octets at a time: a loop takes some 50 instructions more.
// As it was: octets by name, as zero_behind asks for them; length and octets are apart in an address.
fn zero_from(a: &[u8; 20], n: u8) -> bool
    ensures { result ≡ every is_zero (drop n a.now) }
{
    let first = zero_behind(a[0], a[1], a[2], a[3], a[4], a[5], a[6], a[7], n, 0);
    let second = zero_behind(a[8], a[9], a[10], a[11], a[12], a[13], a[14], a[15], n, 8);
    let third = zero_behind(a[16], a[17], a[18], a[19], 0, 0, 0, 0, n, 16);
    first & second & third
}

// Whether an open place's address is to 20, zero filled, and empty for 1998.
// As it was: the kind is a number: address_sound of rules asks it.
fn address_sound(kind: u8, a: &Address) -> bool
    ensures { result ≡ address_sound kind a.now }
{
    let filled = zero_from(&a.octets, a.length);
    (a.length <= 20) & filled & ((kind != 1) | (a.length == 0))
}

// Whether an open place is sound. Addresses are looked at only where the numbers are sound: so fewer values are kept at a time.
// As it was: the kind is a number, 0 for none: open_sound of rules asks it.
fn open_sound(registry: &[Entry; 8], timer: u32, clock: u32, p: &Place) -> bool
    ensures { result ≡ open_sound registry.now timer clock p.now }
{
    let kind = registry::kind_of(registry, p.key.context);
    let sum = u16::from(p.segments) + u16::from(p.remaining.0);
    let numbers = (kind != 0)
        & (p.key.reference.0 <= 127)
        & (p.instruction <= 3)
        & (1 <= p.remaining.0)
        & (p.remaining.0 <= 9)
        & (1 <= p.segments)
        & (sum <= 10)
        & (p.octets <= 2048);
    if numbers {
        let from = address_sound(kind, &p.key.origin);
        let to = address_sound(kind, &p.key.destination);
        let young = table::elapsed(clock, p.start) < timer;
        from & to & young
    } else {
        false
    }
}

// What is seen of the open places: their digests, one after the other, and whether each is sound.
// As it was: an array and how much of it counts, since an ArrayVec can't be Copy, and this type is.
#[derive(Clone, Copy)]
pub struct Seen {
    pub digests: [u64; 16],
    pub open: usize,
    pub sound: bool,
}

// What the first eight octets of an address are, roughly: they tell most addresses apart.
// As it was: octets by name, as word asks for them.
fn head(a: &[u8; 20]) -> u64
    ensures value { result ≡ head_of a.now }
    ensures upper_bound { result ≤ 2 * word_most }
{
    sound_free::word(a[0], a[1], a[2], a[3]) + sound_free::word(a[4], a[5], a[6], a[7])
}

// What tells most open places apart, as one number. Any number of the key would do; this is the key but for its addresses' octets, with the first eight of each mixed in.
// As it was: `as`, since u64::from of a field behind a reference tells no proof that the field is in its range, and the sums then have no bounds.
fn digest_of(p: &Place) -> u64
    ensures { result ≡ digest p.now }
{
    let names = (p.key.association as u64) * 65536 + (p.key.context.0 as u64);
    let lengths = (p.key.origin.length as u64) * 256 + (p.key.destination.length as u64);
    let mix = head(&p.key.destination.octets) + 2 * head(&p.key.origin.octets);
    (names * 256 + (p.key.reference.0 as u64)) * 65536 + lengths + 40503 * mix
}

// The open places in one go.
pub fn look_over(places: &[Place; 16], registry: &[Entry; 8], timer: u32, clock: u32) -> Seen
    ensures sound_value { result.sound ≡ every (sound_if_open registry.now timer clock) places.now }
    ensures digests { (result.open ≤ 16) × (take result.open result.digests ≡ map digest (those is_open places.now)) }
{
    let mut digests = [0; 16];
    let mut sound = true;
    let mut open = 0;
    for p in places {
        if p.mark == 1 {
            digests[open] = digest_of(p);
            sound &= open_sound(registry, timer, clock, p);
            open += 1;
        }
    }
    Seen {
        digests,
        open,
        sound,
    }
}

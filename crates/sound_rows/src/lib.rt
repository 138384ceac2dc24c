// Whether a summary, which its caller lends, is sound beside open places, of which their associations are told. The marks are at 0 + i, as the rules have it.
#![tactic(auto)]

ghost use Rattle.std.specs.Prelude.{if◌then◌else◌, ℕ, ◌≡◌, true, not, ◌&&◌, ◌||◌, ◌+◌, ◌<◌, ◌≤◌, ◌%◌, eqb, leb, length, Some, [], ◌∷◌, ◌++◌, get_or, set};
ghost use Rattle.rules.specs.General.{every, every_two};
ghost use Rattle.rules.specs.Places.{is_at};
ghost use Rattle.rules.specs.Summary.{every_below, row_count, is_used, is_bare, row_sound};
ghost use Rattle.sound_rows.specs.Listing.{is_other, of_those, low_of, name_fits, EmptyFrom, listed_in, sound_beside};

use arrayvec::ArrayVec;

// All numbers of a row but the mark, in one: 0 where each is.
fn rest_of(m: &[u64; rules::SUMMARY], i: usize) -> u64
    requires { i < 64 }
    ensures { eqb result 0 ≡ is_bare m.now i }
{
    m[64 + i] | m[128 + i] | m[192 + i] | m[256 + i] | m[320 + i] | m[384 + i] | m[448 + i]
}

// A number of a row that is not marked.
fn unmarked(mark: u64, number: u64) -> u64
    ensures { eqb result 0 ≡ (not (eqb mark 0) || eqb number 0) }
{
    if mark == 0 { number } else { 0 }
}

// How many rows are used, where every row is sound. Used rows may stand anywhere. With no way out the loop takes several rows at a time.
fn scattered_sound(m: &[u64; rules::SUMMARY]) -> Option<usize>
    ensures sound { is_at result ≡ every_below row_count (row_sound m.now) }
    ensures used { (k : ℕ) → result ≡ Some k → k ≡ length (of_those (is_used m.now) (low_of m.now) row_count) }
{
    let mut marks: u64 = 0;
    let mut names: u64 = 0;
    let mut rest: u64 = 0;
    let mut used: usize = 0;
    for i in 0..rules::ROWS {
        let mark = m[0 + i];
        marks |= mark;
        names |= m[64 + i];
        rest |= unmarked(mark, rest_of(m, i));
        used += (mark % 2) as usize;
    }
    ((marks <= 1) & (names <= 65535) & (rest == 0)).then_some(used)
}

// How many rows are used before the first that is not.
fn first_used(m: &[u64; rules::SUMMARY]) -> usize
    ensures { (result ≤ 64) × (every_below result (is_used m.now) ≡ true) }
{
    for i in 0..rules::ROWS {
        if m[0 + i] != 1 {
            return i;
        }
    }
    rules::ROWS
}

// All associations of the first n rows, in one.
fn names_of(m: &[u64; rules::SUMMARY], n: usize) -> u64
    requires { n ≤ 64 }
    ensures { leb result 65535 ≡ every_below n (name_fits m.now) }
{
    let mut names: u64 = 0;
    for i in 0..n {
        names |= m[64 + i];
    }
    names
}

// All numbers of the rows from number at on, in one: 0 where each is.
fn rest_from(m: &[u64; rules::SUMMARY], at: usize) -> u64
    requires { at ≤ 64 }
    ensures { eqb result 0 ≡ true → EmptyFrom m.now at 64 }
{
    let mut rest: u64 = 0;
    for i in at..rules::ROWS {
        rest |= m[0 + i] | rest_of(m, i);
    }
    rest
}

// How many rows are used, where every row is sound. They are used from the first on, as calls leave them, so that mostly no mark need be asked twice.
fn rows_sound(m: &[u64; rules::SUMMARY]) -> Option<usize>
    ensures sound { is_at result ≡ every_below row_count (row_sound m.now) }
    ensures used { (k : ℕ) → result ≡ Some k → k ≡ length (of_those (is_used m.now) (low_of m.now) row_count) }
{
    let used = first_used(m);
    let empty = rest_from(m, used) == 0;
    if empty {
        (names_of(m, used) <= 65535).then_some(used)
    } else {
        scattered_sound(m)
    }
}

// The low half of a number, and the low octet of that.
fn low(x: u64) -> u16
    ensures { result ≡ x % 65536 }
{
    (x % 65536) as u16
}

fn octet_of(x: u16) -> usize
    ensures { (result ≡ x % 256) × (result < 256) }
{
    (x % 256) as usize
}

// A hint: a number's index in the list, and never 0.
fn hint_of(n: usize) -> u8
    requires { n < 64 }
    ensures { result ≡ 0 → ⊥ }
{
    (64 + n) as u8
}

// The associations of used rows that were met, and hints by the low octet: where there is none, no association of the list has that octet; else the last such one is mostly where the
// hint says.
#[derive(Drop)]
struct Listed {
    names: ArrayVec<u16, 64>,
    hints: [u8; 256],
}

impl Listed {
    // Whether a number is none of the list. With no way out the loop takes eight at a time.
    #[inline]
    fn lacks(&self, x: u16) -> bool
        ensures { result ≡ every (is_other x) self.now.names.items }
    {
        let names = self.names.as_slice();
        let mut new = true;
        for y in names {
            new &= *y != x;
        }
        new
    }

    // The same; the list is looked at only where there is a hint.
    #[inline]
    fn is_new(&self, x: u16) -> bool
        ensures { result ≡ (if eqb (get_or self.now.hints (x % 256) 0) 0 then true else every (is_other x) self.now.names.items) }
    {
        self.hints[octet_of(x)] == 0 || self.lacks(x)
    }

    // Whether a number is one of the list: where the hint says, or elsewhere.
    #[inline]
    fn has(&self, x: u16) -> bool
        ensures { result ≡ listed_in self.now.names.items x }
    {
        let names = self.names.as_slice();
        let i = usize::from(self.hints[octet_of(x)] % 64);
        (i < names.len() && names[i] == x) || !self.lacks(x)
    }

    // Whether each of some associations is one of the list.
    #[inline]
    fn has_all(&self, names: &[u16]) -> bool
        ensures { result ≡ every (listed_in self.now.names.items) names.now }
    {
        names.iter().all(|x| self.has(*x))
    }

    // One more.
    #[inline]
    fn push(&mut self, x: u16)
        requires { length self.old.names.items < 64 }
        ensures names { self.new.names.items ≡ self.old.names.items ++ x ∷ [] }
        ensures hints { (v : ℕ) × ((v ≡ 0 → ⊥) × (self.new.hints ≡ set self.old.hints (x % 256) v)) }
    {
        self.hints[octet_of(x)] = hint_of(self.names.len());
        self.names.push(x);
    }
}

// Of rows that are sound: whether no two are used for one association and each of some associations has one. Those of used rows are listed in one go, which ends with the last of
// them; one is looked for among those before it only where one of them has its low octet.
fn are_told(m: &[u64; rules::SUMMARY], used: usize, names: &[u16]) -> bool
    requires { used ≡ length (of_those (is_used m.now) (low_of m.now) row_count) }
    ensures { result ≡ (every_two is_other (of_those (is_used m.now) (low_of m.now) row_count) && every (listed_in (of_those (is_used m.now) (low_of m.now) row_count)) names.now) }
{
    let mut listed = Listed {
        names: ArrayVec::new(),
        hints: [0; 256],
    };
    let mut apart = true;
    let mut i = 0;
    // As it was: a while over what is listed: a for over the rows would need a way out once all are, and another end for rows that run out, which they never do.
    while listed.names.len() < used {
        if m[0 + i] != 1 {
            i += 1;
            continue;
        }
        let x = low(m[64 + i]);
        apart = listed.is_new(x) & apart;
        listed.push(x);
        i += 1;
    }
    apart & listed.has_all(names)
}

// Whether a summary is sound beside open places of some associations: any bits may be handed over.
pub fn is_sound(m: &[u64; rules::SUMMARY], names: &[u16]) -> bool
    ensures { result ≡ sound_beside m.now names.now }
{
    match rows_sound(m) {
        Some(used) => are_told(m, used, names),
        None => false,
    }
}

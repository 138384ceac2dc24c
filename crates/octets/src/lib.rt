// Octets in lent areas: copying into a part of one, and numbers, most significant octet first.
#![tactic(auto)]

ghost use Rattle.std.specs.Prelude.{◌≡◌, [], ◌∷◌, min, take, drop};
ghost use Rattle.octets.specs.Splice.{splice};
ghost use Rattle.octets.specs.Number.{number, big_endian};

// Writes src at the front of dst, as far as dst reaches.
// As it was: octet by octet, since copy_from_slice becomes a call of memmove, which the library for C then needs from outside.
pub fn put(dst: &mut [u8], src: &[u8])
    ensures { dst.new ≡ splice dst.old 0 src.now }
{
    let n = dst.len().min(src.len());
    for i in 0..n {
        dst[i] = src[i];
    }
}

// Writes src over dst from at on, as far as dst reaches.
#[tactic(auto, using(crate::proofs::Splice::splice_rest))]
pub fn put_at(dst: &mut [u8], at: usize, src: &[u8])
    ensures { dst.new ≡ splice dst.old at src.now }
{
    let from = at.min(dst.len());
    put(&mut dst[from..], src);
}

// The n octets of s from a place on, as far as s reaches: a part of it, not a copy.
pub fn part(s: &[u8], from: usize, n: usize) -> &[u8]
    ensures { result.now ≡ take n (drop from s.now) }
{
    let rest = &s[from.min(s.len())..];
    &rest[..n.min(rest.len())]
}

// Two octets as a number.
// As it was: (iv) a function for each width: std has one for each, u16::from_be_bytes and u32::from_be_bytes, and a number of either width would be cast at each call.
pub fn number2(a: u8, b: u8) -> u16
    ensures { result ≡ number (a ∷ b ∷ []) }
{
    u16::from_be_bytes([a, b])
}

// Four octets as a number.
pub fn number4(a: u8, b: u8, c: u8, d: u8) -> u32
    ensures { result ≡ number (a ∷ b ∷ c ∷ d ∷ []) }
{
    u32::from_be_bytes([a, b, c, d])
}

// A number as two octets.
pub fn octets2(x: u16) -> [u8; 2]
    ensures { result ≡ big_endian 2 x }
{
    x.to_be_bytes()
}

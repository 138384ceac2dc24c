// How data is shared out among segments.
ghost use Rattle.std.specs.Prelude.{◌≤◌};

// How many octets of it the first segment carries, and each later one at most.
#[derive(Clone, Copy)]
pub struct Shares {
    pub first: usize,
    pub later: usize,
    pub ghost first_short: { first ≤ 255 },
    pub ghost later_some: { 1 ≤ later },
    pub ghost later_short: { later ≤ 255 },
}

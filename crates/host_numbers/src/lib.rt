// What crosses to C as numbers, by the definitions of specs/Crossing.antt: a decision, and a returned part.
#![tactic(auto)]

ghost use Rattle.std.specs.Prelude.{◌≡◌};
ghost use Rattle.rules.specs.Places.{found_at};
ghost use Rattle.host_numbers.specs.Crossing.{c_decision_of, decision_of, located, Within};

use rules::{Decision, Part};

// A decision as numbers. kind: 0 refused, 1 saved, 2 delivered of the parameter, 3 delivered of the store, 4 lost. A place of 16 is none.
// As it was: the C interface has these numbers, and no enum or Option.
#[repr(C)]
#[derive(Clone, Copy)]
pub struct CDecision {
    pub place: usize,
    pub start: usize,
    pub length: usize,
    pub kind: u8,
    pub cause: u8,
}

// A delivery: so many octets from start on, of the parameter (source 0) or of the store (source 1).
// As it was: the C interface has a number for the source.
#[repr(C)]
#[derive(Clone, Copy)]
pub struct CPart {
    pub start: usize,
    pub length: usize,
    pub source: u8,
}

impl From<Decision> for CDecision {
    ghost from_gives = { λ d o. o ≡ c_decision_of d };

    // As it was: C has numbers for the kinds of a decision (c_decision_of).
    fn from(decision: Decision) -> CDecision {
        match decision {
            Decision::Refused => numbers(0, 0, 0, 0, 0),
            Decision::Saved(place) => numbers(1, place, 0, 0, 0),
            Decision::Delivered(Part::OfParameter { start, length }) => numbers(
                2, 0, start, length, 0,
            ),
            Decision::Delivered(Part::OfStore { place, length }) => numbers(3, place, 0, length, 0),
            Decision::Lost(cause, found) => numbers(4, found.unwrap_or(rules::PLACES), 0, 0, cause),
        }
    }
}

fn numbers(kind: u8, place: usize, start: usize, length: usize, cause: u8) -> CDecision
    ensures { result ≡ record { place = place; start = start; length = length; kind = kind; cause = cause } }
{
    CDecision {
        place,
        start,
        length,
        kind,
        cause,
    }
}

// The place that a number of C names; 16 names none.
// As it was: C has 16 for no place (found_at).
fn found_of(place: usize) -> Option<usize>
    ensures { result ≡ found_at place }
{
    if place == rules::PLACES {
        None
    } else {
        Some(place)
    }
}

impl From<CDecision> for Decision {
    ghost from_gives = { λ o d. d ≡ decision_of o };

    fn from(o: CDecision) -> Decision {
        match o.kind {
            1 => Decision::Saved(o.place),
            2 => Decision::Delivered(Part::OfParameter {
                start: o.start,
                length: o.length,
            }),
            3 => Decision::Delivered(Part::OfStore {
                place: o.place,
                length: o.length,
            }),
            4 => Decision::Lost(o.cause, found_of(o.place)),
            _ => Decision::Refused,
        }
    }
}

// Where so many delivered octets are.
pub fn located_at(decision: Decision, n: usize) -> CPart
    requires { Within decision n }
    ensures { result ≡ located decision n }
{
    if n == 0 {
        return nowhere();
    }
    match decision {
        Decision::Delivered(Part::OfParameter { start, .. }) => CPart {
            start,
            length: n,
            source: 0,
        },
        Decision::Delivered(Part::OfStore { place, .. }) => CPart {
            start: rules::STRETCH * place,
            length: n,
            source: 1,
        },
        Decision::Refused | Decision::Saved(_) | Decision::Lost(_, _) => nowhere(),
    }
}

fn nowhere() -> CPart
    ensures { result ≡ record { start = 0; length = 0; source = 0 } }
{
    CPart {
        start: 0,
        length: 0,
        source: 0,
    }
}

// The octets that a segment delivered.
#![tactic(auto)]

ghost use Rattle.std.specs.Prelude.{◌≡◌};
ghost use Rattle.rules.specs.Delivery.{part_of, part_of_place};
ghost use Rattle.rules.specs.Promises.{OfDelivery};

use rules::{Decision, Part};

// So many octets of a list from a position on, or none where they are not all inside.
// As it was: part_of of rules names the list, a place and a number.
fn part_of(s: &[u8], start: usize, n: usize) -> &[u8]
    ensures { result.now ≡ part_of s.now start n }
{
    s.get(start..).and_then(|rest| rest.get(..n)).unwrap_or(&[])
}

// So many octets from the start of a place's stretch of the store, or none where they are not all inside it.
// As it was: part_of_place of rules names them.
fn part_of_place(store: &[u8], place: usize, n: usize) -> &[u8]
    ensures { result.now ≡ part_of_place store.now place n }
{
    if place < rules::PLACES && n <= rules::STRETCH {
        part_of(store, rules::STRETCH * place, n)
    } else {
        &[]
    }
}

// What was delivered: a part of the parameter or a part of the store, according to the decision.
#[tactic(auto, unfolding(rules::specs::Delivery::delivery))]
pub fn delivery<'a>(decision: Decision, s: &'a [u8], store: &'a [u8]) -> &'a [u8]
    ensures { OfDelivery decision s.now store.now result.now }
{
    match decision {
        Decision::Delivered(Part::OfParameter { start, length }) => part_of(s, start, length),
        Decision::Delivered(Part::OfStore { place, length }) => part_of_place(store, place, length),
        Decision::Refused | Decision::Saved(_) | Decision::Lost(_, _) => &[],
    }
}

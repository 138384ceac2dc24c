// The fields of a parameter, each by itself: what it says, then the position past it; or its refusal.
#![tactic(auto)]

ghost use Rattle.std.specs.Prelude.{◌≡◌, ◌≤◌, ◌<◌, length, OnOk};
ghost use Rattle.rules.specs.Numbers.{parameter_most};
ghost use Rattle.refusals.specs.Numbers.{number_of};
ghost use Rattle.param_fields.specs.Fields.{octet_field, last_field, known_field, context_field, sequence_field, address_field};

use refusals::Refusal;
use rules::{Context, Entry, Fault, Reference, Remaining, Span};

mod parameter;

pub use parameter::Parameter;

// As it was: reference 255 stands for none, as in a parameter itself: reference_of of rules says so.
#[derive(Clone, Copy, PartialEq, Eq)]
pub struct Sequence {
    pub new: bool,
    pub remaining: Remaining,
    pub reference: Reference,
}

// A refusal that blames the octet at a position.
// As it was: `as u16`, since no From narrows a position; a TryFrom would add an error that the bound rules out.
fn fault(refusal: Refusal, at: usize) -> Fault
    requires { at ≤ parameter_most }
    ensures { result ≡ record { number = number_of refusal; position = at } }
{
    Fault {
        number: u8::from(refusal),
        position: at as u16,
    }
}

// The context with its kind, where it is not padded and is registered; its last octet is at a position.
// As it was: the kind is a number, 0 where there is none: kind_of of rules answers it.
fn known(
    registry: &[Entry; 8],
    context: Context,
    padded: bool,
    last: usize,
) -> Result<(Context, u8, usize), Fault>
    requires { last ≤ 1 }
    ensures { result ≡ known_field registry.now context «padded» last }
{
    let kind = registry::kind_of(registry, context);
    if padded {
        return Err(fault(Refusal::ContextPadded, last));
    }
    if kind == 0 {
        return Err(fault(Refusal::ContextUnknown, last));
    }
    Ok((context, kind, last + 1))
}

impl Parameter<'_> {
    // The octet at a position, where the parameter goes on so far.
    #[tactic(auto, unfolding(crate::specs::Fields::octet_field))]
    fn octet(&self, at: usize) -> Result<u8, Fault>
        ensures value { result ≡ octet_field self.now.octets.now at }
        ensures there { OnOk result (at < length self.now.octets.now) }
    {
        let cut = fault(Refusal::ParameterCut, self.octets.len());
        self.octets.get(at).copied().ok_or(cut)
    }

    // An octet that has to be the last of its field.
    #[tactic(auto, unfolding(crate::specs::Fields::last_field, crate::specs::Fields::octet_field))]
    pub fn last_field(&self, at: usize) -> Result<(u8, usize), Fault>
        ensures { result ≡ last_field self.now.octets.now at }
    {
        let y = self.octet(at)?;
        if y < 128 {
            return Err(fault(Refusal::OctetGoesOn, at));
        }
        Ok((y, at + 1))
    }

    #[tactic(auto, using(crate::proofs::Chain::steps))]
    pub fn context_field(&self, registry: &[Entry; 8]) -> Result<(Context, u8, usize), Fault>
        ensures { result ≡ context_field registry.now self.now.octets.now }
    {
        let x = self.octet(0)?;
        if 128 <= x {
            return known(registry, Context(u16::from(x % 128)), false, 0);
        }
        let (y, _) = self.last_field(1)?;
        let context = Context(u16::from(x % 128) + 128 * u16::from(y % 128));
        known(registry, context, y % 128 == 0, 1)
    }

    #[tactic(auto, using(crate::proofs::Chain::steps))]
    pub fn sequence_field(&self, at: usize) -> Result<(Sequence, usize), Fault>
        ensures { result ≡ sequence_field self.now.octets.now at }
    {
        let x = self.octet(at)?;
        let new = 64 <= x % 128;
        let remaining = Remaining(x % 64);
        let alone = new & (x % 64 == 0);
        let (reference, next) = if 128 <= x {
            (Reference(255), at + 1)
        } else {
            let (y, next) = self.last_field(at + 1)?;
            (Reference(y % 128), next)
        };
        if alone != (128 <= x) {
            return Err(fault(Refusal::SequenceOctet, at));
        }
        Ok((
            Sequence {
                new,
                remaining,
                reference,
            },
            next,
        ))
    }

    #[tactic(auto, unfolding(crate::specs::Fields::address_field, crate::specs::Fields::octet_field))]
    pub fn address_field(&self, at: usize) -> Result<(Span, usize), Fault>
        ensures { result ≡ address_field self.now.octets.now at }
    {
        let length = self.octet(at)?;
        if 20 < length {
            return Err(fault(Refusal::AddressLong, at));
        }
        let start = at + 1;
        let n = usize::from(length);
        if self.octets.len() - start < n {
            return Err(fault(Refusal::ParameterCut, self.octets.len()));
        }
        Ok((Span { at: start, length }, start + n))
    }
}

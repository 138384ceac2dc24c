// One parameter read, from left to right.
#![tactic(auto)]

ghost use Rattle.std.specs.Prelude.{◌≡◌, drop};
ghost use Rattle.param_read.specs.Reading.{addresses_field, reading};

use param_fields::Parameter;
use refusals::Refusal;
use rules::{Entry, Fault, Fields, Heading, Span};

#[derive(Clone, Copy)]
pub struct Addresses {
    pub origin: Span,
    pub destination: Span,
    pub information: usize,
}

// Both addresses, where the kind has them, and where the information starts.
// As it was: the kind is a number: has_addresses of rules asks it.
#[tactic(auto, using(crate::proofs::Chain::steps))]
fn addresses_field(p: &Parameter, kind: u8, at: usize) -> Result<Addresses, Fault>
    ensures { result ≡ addresses_field p.now.octets.now kind at }
{
    if kind != 2 {
        let none = Span { at: 0, length: 0 };
        return Ok(Addresses {
            origin: none,
            destination: none,
            information: at,
        });
    }
    let (origin, end) = p.address_field(at)?;
    let (destination, information) = p.address_field(end)?;
    Ok(Addresses {
        origin,
        destination,
        information,
    })
}

// A parameter's fields, or number and position of the first check that applies to it.
#[tactic(auto, using(crate::proofs::Chain::steps))]
pub fn read(registry: &[Entry; 8], s: &[u8]) -> Result<Fields, Fault>
    ensures { result ≡ reading registry.now s.now }
{
    if rules::PARAMETER < s.len() {
        return Err(Fault {
            number: u8::from(Refusal::ParameterLong),
            position: rules::NOWHERE,
        });
    }
    let p = Parameter { octets: s };
    let (context, kind, at) = p.context_field(registry)?;
    let (x, at) = p.last_field(at)?;
    let (q, at) = p.sequence_field(at)?;
    let a = addresses_field(&p, kind, at)?;
    let instruction = x % 4;
    let heading = Heading {
        context,
        kind,
        instruction,
        new: q.new,
        remaining: q.remaining,
        reference: q.reference,
    };
    Ok(Fields {
        heading,
        origin: a.origin,
        destination: a.destination,
        information: a.information,
    })
}

// The information: the tail of the parameter, lent on and never copied.
pub fn tail(s: &[u8], at: usize) -> &[u8]
    ensures { result.now ≡ drop at s.now }
{
    &s[at.min(s.len())..]
}

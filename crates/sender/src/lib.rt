// Sending: data cut into segments, one segment a call.
#![tactic(auto)]

ghost use Rattle.std.specs.Prelude.{if◌then◌else◌, ◌≡◌, ◌≤◌, Err};
ghost use Rattle.refusals.specs.Numbers.{number_if};
ghost use Rattle.rules.specs.Refusals.{first};
ghost use Rattle.rules.specs.Promises.{OfSending};
ghost use Rattle.rules.specs.Layout.{is_unsegmented};
ghost use Rattle.send_cut.specs.Plan.{Possible};
ghost use Rattle.rules.specs.Sending.{request_checks, heading_with};
ghost use Rattle.sender.specs.Steps.{told, octets_with, Emitted, Ready};

use refusals::Refusal;
use rules::{Heading, Reference, Remaining, Request, Sent, Table};
use send_cut::Piece;

// Whether what is asked for passes its checks, rooms and area aside; else the first that does not.
// As it was: the kind is a number: request_checks of rules asks it.
fn judge(sound: bool, kind: u8, q: Request, o: usize, d: usize, n: usize) -> Result<(), Refusal>
    ensures { number_if result ≡ first (request_checks sound kind q o d n) }
{
    if !sound {
        return Err(Refusal::Unsound);
    }
    if kind == 0 {
        return Err(Refusal::ContextUnknown);
    }
    if rules::DATA < n {
        return Err(Refusal::DataLong);
    }
    if rules::ADDRESS < o || rules::ADDRESS < d {
        return Err(Refusal::AddressLong);
    }
    if kind == 1 && 0 < o + d {
        return Err(Refusal::AddressUnwanted);
    }
    if 3 < q.instruction {
        return Err(Refusal::InstructionLarge);
    }
    if 127 < q.reference.0 {
        return Err(Refusal::ReferenceLarge);
    }
    Ok(())
}

// The reference that a segment repeats; an unsegmented parameter has none.
fn reference_for(q: Request, segmented: bool) -> Reference
    ensures { result.0 ≡ (if segmented then q.reference.0 else 255) }
{
    if segmented {
        q.reference
    } else {
        Reference(255)
    }
}

// The heading of the segment that a piece is of.
fn heading(kind: u8, q: Request, p: Piece) -> Heading
    requires { Possible q.number p }
    ensures { result ≡ heading_with kind q p.count p.segmented }
{
    let context = q.context;
    let reference = reference_for(q, p.segmented);
    Heading {
        context,
        kind,
        instruction: q.instruction,
        new: q.number == 0,
        remaining: Remaining((p.count - 1 - q.number) as u8),
        reference,
    }
}

// Octet 3a, where there is one.
fn extra(g: Heading) -> usize
    ensures value { result ≡ (if is_unsegmented g.new g.remaining.0 then 0 else 1) }
    ensures upper_bound { result ≤ 1 }
{
    if g.new && g.remaining.0 == 0 { 0 } else { 1 }
}

// Writes the segment that a piece is of, where the area is long enough.
fn emit(
    kind: u8,
    h: usize,
    q: Request,
    p: Piece,
    origin: &[u8],
    destination: &[u8],
    whole: &[u8],
    area: &mut [u8],
) -> Result<Sent, Refusal>
    requires { Ready kind q p h origin.now destination.now whole.now }
    ensures { Emitted (octets_with kind q p origin.now destination.now whole.now) p.count area.old (told result) area.new }
{
    let from = p.from;
    let size = p.size;
    let information = octets::part(whole, from, size);
    let g = heading(kind, q, p);
    let total = h + extra(g) + information.len();
    if area.len() < total {
        return Err(Refusal::AreaShort);
    }
    param_write::write(area, g, origin, destination, information);
    // As it was: narrowed by `as`, which is proved to fit; TryFrom would bring an error that never comes.
    Ok(Sent {
        refusal: 0,
        count: p.count as u8,
        length: total as u16,
    })
}

// One segment of the data, written; or the first refusal.
// As it was: the arguments are those of the public call, one by one.
fn segment(
    t: &Table,
    q: Request,
    origin: &[u8],
    destination: &[u8],
    whole: &[u8],
    area: &mut [u8],
) -> Result<Sent, Refusal>
    ensures { OfSending t.now q origin.now destination.now whole.now area.old (told result) area.new }
{
    let idle = sound::look_idle(t);
    let sound = sound::is_sound(t, idle);
    let context = q.context;
    let kind = registry::kind_of(&t.registry, context);
    judge(sound, kind, q, origin.len(), destination.len(), whole.len())?;
    let h = send_cut::header_length(kind, context, origin.len(), destination.len());
    let p = send_cut::cut(h, q, whole.len())?;
    emit(kind, h, q, p, origin, destination, whole, area)
}

// The answer to a call that is refused.
fn refused(r: Refusal) -> Sent
    ensures { result ≡ told (Err r) }
{
    Sent {
        refusal: u8::from(r),
        count: 0,
        length: 0,
    }
}

// As it was: parameters one by one, as the C interface takes them.
// Writes one segment of the data to the front of the area, and answers the count of segments and its length; or refuses.
pub fn sending(
    t: Table,
    q: Request,
    origin: &[u8],
    destination: &[u8],
    whole: &[u8],
    area: &mut [u8],
) -> Sent
    ensures { OfSending t q origin.now destination.now whole.now area.old result area.new }
{
    segment(&t, q, origin, destination, whole, area).unwrap_or_else(refused)
}

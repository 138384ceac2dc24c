// Writing one parameter.
#![tactic(auto)]

ghost use Rattle.std.specs.Prelude.{◌≡◌, ◌+◌, ◌≤◌, ◌<◌, length};
ghost use Rattle.octets.specs.Splice.{splice};
ghost use Rattle.rules.specs.Layout.{context_octets, address_octets, addresses_octets, parameter_octets};
ghost use Rattle.param_write.specs.Writing.{Writable, Writes, control_octets};

use rules::{Context, Heading};

// Where a parameter is written: a lent area, and the place of the next octet, which may be past the area's end.
#[derive(Drop)]
struct Writer<'a> {
    area: &'a mut [u8],
    at: usize,
}

impl Writer<'_> {
    // Octets, as far as the area reaches.
    fn put(&mut self, octets: &[u8])
        requires { self.old.at ≤ 100 }
        ensures { Writes self.old octets.now self.new }
    {
        octets::put_at(self.area, self.at, octets);
        self.at += octets.len();
    }

    // The context, in its shortest form.
    fn put_context(&mut self, context: Context)
        requires { (context.0 < 16384) × (self.old.at ≡ 0) }
        ensures wrote { Writes self.old (context_octets context.0) self.new }
        ensures upper_bound { self.new.at ≤ self.old.at + 2 }
    {
        let number = context.0;
        if number < 128 {
            self.put(&[(128 + number) as u8]);
        } else {
            self.put(&[(number % 128) as u8, (128 + number / 128) as u8]);
        }
    }

    // Octets 2, 3 and 3a. Octet 3 has the sequence indicator and segments remaining.
    fn put_control(&mut self, g: Heading)
        requires writable { Writable g }
        requires at_bound { self.old.at ≤ 2 }
        ensures wrote { Writes self.old (control_octets g) self.new }
        ensures upper_bound { self.new.at ≤ self.old.at + 3 }
    {
        let octet2 = 128 + g.instruction;
        let alone = g.new & (g.remaining.0 == 0);
        if alone {
            return self.put(&[octet2, 192]);
        }
        let octet3 = if g.new {
            64 + g.remaining.0
        } else {
            g.remaining.0
        };
        self.put(&[octet2, octet3, 128 + g.reference.0]);
    }

    // An address, its length octet first.
    fn put_address(&mut self, address: &[u8])
        requires address_len_bound { length address.now ≤ 20 }
        requires at_bound { self.old.at ≤ 50 }
        ensures wrote { Writes self.old (address_octets address.now) self.new }
        ensures upper_bound { self.new.at ≤ self.old.at + 21 }
    {
        self.put(&[address.len() as u8]);
        self.put(address);
    }

    // Both addresses, where the kind has them.
    // As it was: the kind is a number: addresses_octets of rules asks it.
    fn put_addresses(&mut self, kind: u8, origin: &[u8], destination: &[u8])
        requires origin_len_bound { (length origin.now ≤ 20) × (length destination.now ≤ 20) }
        requires at_bound { self.old.at ≤ 5 }
        ensures wrote { Writes self.old (addresses_octets kind origin.now destination.now) self.new }
        ensures upper_bound { self.new.at ≤ self.old.at + 42 }
    {
        if kind == 2 {
            self.put_address(origin);
            self.put_address(destination);
        }
    }

    // A whole parameter.
    fn put_parameter(&mut self, g: Heading, origin: &[u8], destination: &[u8], information: &[u8])
        requires writable { Writable g }
        requires origin_len_bound { (length origin.now ≤ 20) × (length destination.now ≤ 20) }
        requires at_bound { self.old.at ≡ 0 }
        ensures { Writes self.old (parameter_octets g origin.now destination.now information.now) self.new }
    {
        self.put_context(g.context);
        self.put_control(g);
        self.put_addresses(g.kind, origin, destination);
        self.put(information);
    }
}

// Writes one parameter at the front of an area, as far as it reaches.
pub fn write(area: &mut [u8], g: Heading, origin: &[u8], destination: &[u8], information: &[u8])
    requires writable { Writable g }
    requires origin_len_bound { (length origin.now ≤ 20) × (length destination.now ≤ 20) }
    ensures { area.new ≡ splice area.old 0 (parameter_octets g origin.now destination.now information.now) }
{
    let mut w = Writer { area, at: 0 };
    w.put_parameter(g, origin, destination, information);
}

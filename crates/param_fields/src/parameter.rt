// A parameter as its fields are read.
ghost use Rattle.std.specs.Prelude.{◌≤◌, length};
ghost use Rattle.rules.specs.Numbers.{parameter_most};

// Its octets, which are no more than the rule allows: so a position fits in a fault.
#[derive(Clone, Copy)]
pub struct Parameter<'a> {
    pub octets: &'a [u8],
    pub ghost short: { length octets.now ≤ parameter_most },
}

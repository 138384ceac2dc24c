// A segment as it is judged.
ghost use Rattle.std.specs.Prelude.{◌≤◌};
ghost use Rattle.rules.specs.Numbers.{data_most};

use rules::{Fields, Key, Place};
use table::Search;

// Its sequence's key, its fields, the place that it is about and what that holds, the time, and how many octets of information it has.
// What the place holds counts where the key is not open, too: what no line changes is written back.
#[derive(Clone, Copy)]
pub struct Judged {
    pub key: Key,
    pub fields: Fields,
    pub held: Place,
    pub clock: u32,
    pub search: Search,
    pub length: u8,
    pub ghost octets_fit: { held.octets ≤ data_most },
    pub ghost segments_fit: { held.segments ≤ 9 },
}

// Where data is cut into segments: the octets of a header, and the piece of the data that each segment carries.
#![tactic(auto)]

ghost use Rattle.std.specs.Prelude.{if◌then◌else◌, ◌≡◌, ◌≤◌, ◌<◌, ltb};
ghost use Rattle.refusals.specs.Numbers.{in_numbers};
ghost use Rattle.send_cut.specs.Plan.{header_for, plan_of, segments_plan, piece_from, piece_size, CutPossible};

use refusals::Refusal;
use rules::{Context, Request};

mod shares;

use shares::Shares;

// The piece of the data that a segment carries, and how many segments there are.
#[derive(Clone, Copy)]
pub struct Piece {
    pub count: usize,
    pub segmented: bool,
    pub from: usize,
    pub size: usize,
}

// h: the octets of a header without octet 3a.
// As it was: the kind is a number: has_addresses of rules asks it.
pub fn header_length(kind: u8, context: Context, o: usize, d: usize) -> usize
    requires { (o ≤ 20) × (d ≤ 20) }
    ensures value { result ≡ header_for kind context.0 o d }
    ensures upper_bound { result ≤ 46 }
{
    let n = context_length(context);
    if kind == 2 {
        n + 2 + (2 + o + d)
    } else {
        n + 2
    }
}

// The octets of a context in its shortest form.
fn context_length(context: Context) -> usize
    ensures value { result ≡ (if ltb context.0 128 then 1 else 2) }
    ensures upper_bound { result ≤ 2 }
{
    if context.0 < 128 { 1 } else { 2 }
}

impl Shares {
    // Where the piece of segment k starts.
    fn piece_from(self, k: usize) -> usize
        requires { k < 10 }
        ensures { result ≡ piece_from self.first self.later k }
    {
        if k == 0 {
            0
        } else {
            self.first + (k - 1) * self.later
        }
    }

    // How long it is at most.
    fn piece_size(self, k: usize) -> usize
        ensures { result ≡ piece_size self.first self.later k }
    {
        if k == 0 { self.first } else { self.later }
    }

    // The cut of n octets into segments, and segment k's piece.
    #[tactic(auto, unfolding(crate::specs::Plan::segments_plan))]
    fn cut_segments(self, n: usize, k: usize) -> Result<Piece, Refusal>
        requires { (self.first ≤ n) × (n ≤ 2048) }
        ensures value { in_numbers result ≡ segments_plan self.first self.later n k }
        ensures cut_possible { CutPossible k result }
    {
        let count = 1 + (n - self.first + (self.later - 1)) / self.later;
        if 10 < count {
            return Err(Refusal::RoomBad);
        }
        if count <= k {
            return Err(Refusal::NoSuchSegment);
        }
        Ok(Piece {
            count,
            segmented: true,
            from: self.piece_from(k),
            size: self.piece_size(k),
        })
    }
}

// The cut of n octets by the rooms, with h octets of header.
#[tactic(auto, unfolding(crate::specs::Plan::plan_of, crate::specs::Plan::segments_plan))]
pub fn cut(h: usize, q: Request, n: usize) -> Result<Piece, Refusal>
    requires { (h ≤ 46) × (n ≤ 2048) }
    ensures value { in_numbers result ≡ plan_of h q n }
    ensures cut_possible { CutPossible q.number result }
{
    if 255 < q.room1 {
        return Err(Refusal::RoomBad);
    }
    if 255 < q.room {
        return Err(Refusal::RoomBad);
    }
    if h + n <= q.room1 {
        if 1 <= q.number {
            return Err(Refusal::NoSuchSegment);
        }
        return Ok(Piece {
            count: 1,
            segmented: false,
            from: 0,
            size: n,
        });
    }
    if q.room1 < h + 1 {
        return Err(Refusal::RoomBad);
    }
    if q.room < h + 2 {
        return Err(Refusal::RoomBad);
    }
    let shares = Shares {
        first: q.room1 - h - 1,
        later: q.room - h - 1,
    };
    shares.cut_segments(n, q.number)
}

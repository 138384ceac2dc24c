// The receiving lines: which of them applies to a segment.
#![tactic(auto)]

ghost use Rattle.std.specs.Prelude.{◌≡◌, ◌≤◌};
ghost use Rattle.rules.specs.Numbers.{parameter_most};
ghost use Rattle.rules.specs.Receiving.{line_of, is_start};
ghost use Rattle.receive_lines.specs.Telling.{Tells};

use rules::{Heading, Line, Remaining};

// The line that applies: see the paper's seven.
#[tactic(auto, unfolding(rules::specs::Receiving::line_of))]
pub fn line_of(is_open: bool, before: Remaining, saved: u16, g: Heading, n: usize) -> Line
    requires { n ≤ parameter_most }
    ensures value { result ≡ line_of is_open before.0 saved g n }
    ensures tells { Tells is_open saved n result }
{
    let left = g.remaining.0;
    if g.new && left == 0 {
        return Line::Unsegmented;
    }
    if 9 < left {
        return Line::Broken(4);
    }
    if g.new {
        return if is_open { Line::Restart } else { Line::Start };
    }
    if !is_open {
        return Line::Broken(1);
    }
    if left + 1 != before.0 {
        return Line::Broken(2);
    }
    if rules::DATA < usize::from(saved) + n {
        return Line::Broken(5);
    }
    if left == 0 { Line::Final } else { Line::Next }
}

// Whether a line needs a place for a new sequence.
pub fn starts(line: Line) -> bool
    ensures { result ≡ is_start line }
{
    matches!(line, Line::Start)
}

// The receiving lines judged: what each does with a segment. Nothing is written here.
#![tactic(auto)]

ghost use Rattle.std.specs.Prelude.{if◌then◌else◌, ◌≡◌, List, ℕ, ◌+◌, ◌≤◌, length};
ghost use Rattle.rules.specs.Numbers.{store_least};
ghost use Rattle.rules.specs.Records.{delivered, lost};
ghost use Rattle.rules.specs.Places.{free_place};
ghost use Rattle.rules.specs.Receiving.{open_place, longer};
ghost use Rattle.receive_lines.specs.Telling.{Tells};
ghost use Rattle.receive_perform.specs.Performing.{Fits, Leads};
ghost use Rattle.table.specs.Seeking.{place_in, open_in, is_found};
ghost use Rattle.receive_carry.specs.Carried.{held_if, taken_to, saving_from, told_of, telling_of, begun_by, Holds, carried_at};

mod judged;

pub use judged::Judged;
use receive_perform::{Told, Verdict};
use rules::{Decision, Line, Part, Place, Table};

// What a record of a kind says of a sequence, by what its place holds.
fn told(kind: u8, cause: u8, p: &Place) -> Told
    ensures { result ≡ told_of kind cause p.now.instruction p.now.segments p.now.octets }
{
    Told {
        octets: p.octets,
        kind,
        instruction: p.instruction,
        cause,
        segments: p.segments,
    }
}

impl Judged {
    // The place of the sequence, open after this segment.
    fn open_place(&self, instruction: u8, segments: u8, octets: u16, start: u32) -> Place
        ensures { result ≡ open_place self.now.key self.now.fields.heading.remaining instruction segments octets start }
    {
        Place {
            key: self.key,
            octets,
            start,
            mark: 1,
            instruction,
            remaining: self.fields.heading.remaining,
            segments,
        }
    }

    // .. of one that begins with it.
    fn begun(&self) -> Place
        ensures { result ≡ begun_by self.now self.now.length }
    {
        let heading = self.fields.heading;
        self.open_place(heading.instruction, 1, u16::from(self.length), self.clock)
    }

    // .. and of one that goes on with it.
    fn longer(&self) -> Place
        ensures { let j = self.now in result ≡ longer j.held j.key j.fields.heading j.length }
    {
        let p = &self.held;
        let octets = p.octets + u16::from(self.length);
        self.open_place(p.instruction, p.segments + 1, octets, p.start)
    }

    // A verdict that does not refuse. It saves nothing, and has no record.
    fn taken(&self, put: Place, decision: Decision) -> Verdict
        ensures { result ≡ taken_to self.now.fields.information put decision }
    {
        receive_perform::quiet(put, decision, None, self.fields.information)
    }

    // An unsegmented parameter is delivered at once and touches no place.
    fn unsegmented(&self) -> Verdict
        ensures { let j = self.now in result ≡ telling_of delivered 0 j.fields.heading.instruction 1 j.length (taken_to j.fields.information j.held (Decision.Delivered (Part.OfParameter j.fields.information j.length))) }
    {
        let part = Part::OfParameter {
            start: self.fields.information,
            length: usize::from(self.length),
        };
        Verdict {
            told: Some(told(rules::DELIVERED, 0, &self.begun())),
            ..self.taken(self.held, Decision::Delivered(part))
        }
    }

    // A segment that breaks its open sequence: both are lost, and the place is free.
    fn lose(&self, cause: u8) -> Verdict
        ensures { let j = self.now in result ≡ telling_of lost cause j.held.instruction (j.held.segments + 1) (j.held.octets + j.length) (taken_to j.fields.information free_place (Decision.Lost cause (Some (place_in j.search)))) }
    {
        Verdict {
            told: Some(told(rules::LOST, cause, &self.longer())),
            ..self.taken(
                table::free_place(),
                Decision::Lost(cause, Some(self.search.at())),
            )
        }
    }

    // .. and one that is lost alone, since no sequence is open: the place stays.
    fn stray(&self, cause: u8) -> Verdict
        ensures { let j = self.now in result ≡ telling_of lost cause j.fields.heading.instruction 1 j.length (taken_to j.fields.information j.held (Decision.Lost cause None)) }
    {
        Verdict {
            told: Some(told(rules::LOST, cause, &self.begun())),
            ..self.taken(self.held, Decision::Lost(cause, None))
        }
    }

    // Lines 1, 4, 5 and 6: what was saved, if anything, and this segment are lost.
    fn broken(&self, cause: u8) -> Verdict
        ensures { let j = self.now in result ≡ telling_of lost cause (if is_found j.search then j.held.instruction else j.fields.heading.instruction) ((held_if (is_found j.search) j.held).segments + 1) ((held_if (is_found j.search) j.held).octets + j.length) (taken_to j.fields.information (if is_found j.search then free_place else j.held) (Decision.Lost cause (open_in j.search))) }
    {
        if self.search.is_found() {
            self.lose(cause)
        } else {
            self.stray(cause)
        }
    }

    // Line 2: what was saved is lost, and this segment starts the sequence in the same place.
    fn restart(&self) -> Verdict
        ensures { let j = self.now in result ≡ telling_of lost 3 j.held.instruction j.held.segments j.held.octets (saving_from 0 (taken_to j.fields.information (begun_by j j.length) (Decision.Lost 3 (Some (place_in j.search))))) }
    {
        Verdict {
            saves: Some(0),
            told: Some(told(rules::LOST, 3, &self.held)),
            ..self.taken(self.begun(), Decision::Lost(3, Some(self.search.at())))
        }
    }

    // Line 3: saved in the place for a new sequence.
    fn start(&self) -> Verdict
        ensures { result ≡ saving_from 0 (taken_to self.now.fields.information (begun_by self.now self.now.length) (Decision.Saved (place_in self.now.search))) }
    {
        Verdict {
            saves: Some(0),
            ..self.taken(self.begun(), Decision::Saved(self.search.at()))
        }
    }

    // Line 7, none remaining: saved too, and delivered.
    fn finish(&self) -> Verdict
        ensures { let j = self.now in result ≡ telling_of delivered 0 j.held.instruction (j.held.segments + 1) (j.held.octets + j.length) (saving_from j.held.octets (taken_to j.fields.information free_place (Decision.Delivered (Part.OfStore (place_in j.search) (j.held.octets + j.length))))) }
    {
        let whole = self.longer();
        let part = Part::OfStore {
            place: self.search.at(),
            length: usize::from(whole.octets),
        };
        Verdict {
            saves: Some(self.held.octets),
            told: Some(told(rules::DELIVERED, 0, &whole)),
            ..self.taken(table::free_place(), Decision::Delivered(part))
        }
    }

    // Line 7, more remaining: saved.
    fn go_on(&self) -> Verdict
        ensures { let j = self.now in result ≡ saving_from j.held.octets (taken_to j.fields.information (longer j.held j.key j.fields.heading j.length) (Decision.Saved (place_in j.search))) }
    {
        Verdict {
            saves: Some(self.held.octets),
            ..self.taken(self.longer(), Decision::Saved(self.search.at()))
        }
    }
}

// The verdict on a segment, by its line.
// As it was: a line is a value of the rules (Line): receive_lines::line_of answers it, and the clause leads names it.
pub fn judge(line: Line, j: Judged) -> Verdict
    requires { Tells (is_found j.search) j.held.octets j.length line }
    ensures leads { (t : Table) (store report octets : List ℕ) → Holds t j → length octets ≡ j.length → Leads (carried_at line t store report j octets) t (place_in j.search) j.key result octets store report }
    ensures information_value { (result.information ≡ j.fields.information) × ((store : ℕ) → store_least ≤ store → Fits result store j.length) }
    ensures taken { result.refused ≡ None }
{
    match line {
        Line::Unsegmented => j.unsegmented(),
        Line::Broken(cause) => j.broken(cause),
        Line::Restart => j.restart(),
        Line::Start => j.start(),
        Line::Final => j.finish(),
        Line::Next => j.go_on(),
    }
}

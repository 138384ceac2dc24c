// A trace from standard input, watched block by block to standard output. What is read and what is printed of it is trace's; this reads, writes and keeps count.
#![tactic(auto)]

ghost use Rattle.std.specs.Prelude.{◌<◌, ◌≤◌, ◌↔◌, IsNone};
ghost use Rattle.trace_session.specs.declared.TheConstants.{ROOM};

use streams::Told;
use trace::Watcher;
use trace_events::Replay;

// How many octets are read ahead at most; and there is so much room for what is printed of them.
const ROOM: usize = 65536;

// A replay and the number of its last event, with so many octets read and not yet used.
#[derive(Clone, Copy)]
pub struct Session {
    pub replay: Replay,
    pub events: u64,
    pub have: usize,
    ghost room: { have ≤ ROOM },
}

// What is lent to the calls, what is read and what is printed.
#[derive(Drop)]
struct Areas {
    summary: [u64; rules::SUMMARY],
    store: [u8; rules::STORE],
    report: [u8; rules::REPORT_ARRIVAL],
    input: [u8; ROOM],
    out: [u8; ROOM],
}

// Why a session does not go on: the input has ended, or the trace stopped, or reading or writing failed, which was told.
#[derive(Clone, Copy, Drop)]
struct Over;

impl From<Told> for Over {
    fn from(_told: Told) -> Over {
        Over
    }
}

// Who watches, and how the lines begin that tell of a failure, as 'replay: cannot read'.
#[derive(Drop)]
struct Job<'a, W> {
    rt: &'a HostRuntime,
    who: &'a W,
    unread: &'a [u8],
    unwritten: &'a [u8],
}

impl<W: Watcher> Job<'_, W> {
    // Prints. Where that fails, it is told.
    fn print(&self, out: &[u8]) -> Result<(), Told> {
        streams::write(self.rt, &mut self.rt.stdout(), self.unwritten, out)
    }

    // Reads more, past the octets that wait for the rest of their record. Where the input has ended, so does the replay.
    // Where reading failed, it ends too, with no 'stop': that line says what was found in the trace, and nothing was.
    fn refill(&self, s: &mut Session, areas: &mut Areas) -> Result<(), Over> {
        let have = s.have;
        let n = streams::read(
            self.rt,
            &mut self.rt.stdin(),
            self.unread,
            &mut areas.input[have..],
        )?;
        if n == 0 {
            let end = trace::ending(self.who, s.replay, &areas.summary, have, &mut areas.out);
            self.print(&areas.out[..end])?;
            return Err(Over);
        }
        s.have += n;
        Ok(())
    }

    // A block of the octets that are there: its lines are printed, and what is left moves to the front. Where nothing was used, that is no whole record, and more is read.
    fn step(&self, s: &mut Session, areas: &mut Areas) -> Result<(), Over> {
        let have = s.have;
        let t = trace::block(
            self.who,
            s.events,
            s.replay,
            &mut areas.summary,
            &mut areas.store,
            &mut areas.report,
            &areas.input[..have],
            &mut areas.out,
        );
        s.replay = t.replay;
        self.print(&areas.out[..t.written])?;
        if t.ended {
            return Err(Over);
        }
        areas.input.copy_within(t.used..have, 0);
        s.events = t.events;
        s.have -= t.used;
        if t.used == 0 {
            return self.refill(s, areas);
        }
        Ok(())
    }
}

// All of it: the replay as it ended, of which nothing is left to use. unread and unwritten are how the lines begin that tell of a failure.
pub fn run<W: Watcher>(rt: &HostRuntime, who: &W, unread: &[u8], unwritten: &[u8]) -> Session
    ensures { result.have ≤ 65536 }
{
    let job = Job {
        rt,
        who,
        unread,
        unwritten,
    };
    let mut areas = Areas {
        summary: [0; rules::SUMMARY],
        store: [0; rules::STORE],
        report: [0; rules::REPORT_ARRIVAL],
        input: [0; ROOM],
        out: [0; ROOM],
    };
    let mut s = Session {
        replay: trace_turns::beginning(),
        events: 0,
        have: 0,
    };
    // every loop has to have a number that falls: 2^64 blocks are more than any input has
    for _ in 0..u64::MAX {
        if job.step(&mut s, &mut areas).is_err() {
            return Session {
                replay: s.replay,
                events: 0,
                have: 0,
            };
        }
    }
    s
}

// The program of a watcher, which was started with so many words, its own name among them. Where it was given an argument it tells how it is used, and reads nothing: a trace that is named and not
// read must not pass for an empty one.
pub fn program<W: Watcher>(
    rt: &HostRuntime,
    words: usize,
    who: &W,
    usage: &[u8],
    unread: &[u8],
    unwritten: &[u8],
) -> Option<Session>
    ensures { IsNone result ↔ (1 < words) }
{
    if streams::misused(rt, words, usage) {
        return None;
    }
    Some(run(rt, who, unread, unwritten))
}

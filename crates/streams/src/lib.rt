// Reading and writing a stream for a program, truthfully: a call that a signal interrupts is made again, and any other failure is told on standard error, with its reason.
// A program has no exit status, so what stands on standard error is the sign that it failed.
//
// Each function tells a failure itself. `what` is how the line begins, as 'replay: cannot read'.
#![tactic(auto)]

ghost use Rattle.std.specs.Prelude.{◌≡◌, ℕ, ◌<◌, ◌≤◌, IfErr, IfOk, IsOk, OnErr, OnOk, ltb, length, take, drop};
ghost use Rattle.std.specs.Io.{ReadsAtMost, WritesAtMost};
ghost use Rattle.std.specs.Io.KnownBytes.{Appends, Consumes, IsAtEnd, Keeps, ReadConsumes, WriteAppends};

use std::env::{Env, FillError};
use std::io::{self, ErrorKind, Read, Write};

// How often a call that was interrupted is made again: every loop has to have a number that falls. After so many the interruption is told, as the failure that it is.
const TRIES: u64 = 1000;

// A failure, which was told on standard error.
#[derive(Clone, Copy, Drop)]
pub struct Told;

// A failure in the midst of filling an area, which was told on standard error: so many octets were read before it.
#[derive(Clone, Copy, Drop)]
pub struct Unfilled {
    pub count: usize,
}

// One read.
// As it was: beside write_once, since one function over a closure would have to follow the closure's states through a chain of interrupted calls in its contract, which is longer than this loop.
fn read_once<R: Read>(source: &mut R, area: &mut [u8]) -> io::Result<usize>
    ensures bound { ReadsAtMost result area.new }
    ensures bytes { ReadConsumes (R.remaining source.old) (R.remaining source.new) result area.new }
{
    for _ in 0..TRIES {
        match source.read(area) {
            Err(e) if e.kind() == ErrorKind::Interrupted => {}
            got => return got,
        }
    }
    source.read(area)
}

// One write.
fn write_once<W: Write>(sink: &mut W, octets: &[u8]) -> io::Result<usize>
    ensures bound { WritesAtMost result octets.now }
    ensures bytes { WriteAppends (W.contents sink.old) (W.contents sink.new) result octets.now }
{
    for _ in 0..TRIES {
        match sink.write(octets) {
            Err(e) if e.kind() == ErrorKind::Interrupted => {}
            put => return put,
        }
    }
    sink.write(octets)
}

// Puts octets on standard error. Where that fails too, there is nowhere to tell it.
fn say(rt: &HostRuntime, octets: &[u8]) {
    let _ = rt.stderr().write_all(octets);
}

// The system's own words of a failure, without the number that std puts behind them.
fn words_of(text: &str) -> &str {
    match text.split_once(" (os error ") {
        Some((words, _)) => words,
        None => text,
    }
}

// A failure and its reason, on standard error.
fn fail(rt: &HostRuntime, what: &[u8], e: io::Error) -> Told {
    say(rt, what);
    if let Ok(text) = format!(in rt.alloc(); "{e}") {
        say(rt, b": ");
        say(rt, words_of(text.as_str()).as_bytes());
    }
    say(rt, b"\n");
    Told
}

// Reads once, to the start of an area that is not empty. Where that fails, it is told, and nothing was read. Nothing read, and not failed: the input has ended.
// As it was: the clause is the reader's own (ReadsAtMost).
pub fn read<R: Read>(
    rt: &HostRuntime,
    source: &mut R,
    what: &[u8],
    area: &mut [u8],
) -> Result<usize, Told>
    ensures prefix_len { ReadsAtMost result area.new }
    ensures bytes { ReadConsumes (R.remaining source.old) (R.remaining source.new) result area.new }
{
    read_once(source, area).map_err(|e| fail(rt, what, e))
}

// Reads until the area is full or the input ends. Where a read fails, it is told; what was read before it is counted, and stands at the start of the area, which is not full.
pub fn fill<R: Read>(
    rt: &HostRuntime,
    source: &mut R,
    what: &[u8],
    area: &mut [u8],
) -> Result<usize, Unfilled>
    ensures prefix_len { ReadsAtMost result area.new }
    ensures bytes { IfOk result (λ n. Consumes (R.remaining source.old) (R.remaining source.new) (take n area.new)) }
    ensures ended { IfOk result (λ n. n < length area.new → IsAtEnd (R.remaining source.new)) }
    ensures failed { IfErr result (λ e. (e.count < length area.new) × Consumes (R.remaining source.old) (R.remaining source.new) (take e.count area.new)) }
{
    // As it was: an index beside the area; by a slice that shrinks from turn to turn it was tried, and nothing ties what the area holds in the end to the parts that were read.
    let mut done = 0;
    while done < area.len() {
        let Ok(n) = read(rt, source, what, &mut area[done..]) else {
            return Err(Unfilled { count: done });
        };
        if n == 0 {
            return Ok(done);
        }
        done += n;
    }
    Ok(done)
}

// Writes once, and answers how many octets went out. Where none did, it is told: an answer of 0 is no error of the system's.
fn write_some<W: Write>(
    rt: &HostRuntime,
    sink: &mut W,
    what: &[u8],
    octets: &[u8],
) -> Result<usize, Told>
    ensures bound { IfOk result (λ n. (0 < n) × (n ≤ length octets.now)) }
    ensures bytes { WriteAppends (W.contents sink.old) (W.contents sink.new) result octets.now }
{
    match write_once(sink, octets) {
        Err(e) => Err(fail(rt, what, e)),
        Ok(0) => {
            say(rt, what);
            say(rt, b": nothing was taken\n");
            Err(Told)
        }
        Ok(n) => Ok(n),
    }
}

// Writes all the octets, part by part. Where they did not all go out, it is told.
pub fn write<W: Write>(
    rt: &HostRuntime,
    sink: &mut W,
    what: &[u8],
    octets: &[u8],
) -> Result<(), Told>
    ensures nothing { length octets.now ≡ 0 → IsOk result }
    ensures bytes { OnOk result (Appends (W.contents sink.old) (W.contents sink.new) octets.now) }
    ensures failed { OnErr result ((n : ℕ) × (n < length octets.now) × Appends (W.contents sink.old) (W.contents sink.new) (take n octets.now)) }
{
    let mut rest = octets;
    while !rest.is_empty() {
        let n = write_some(rt, sink, what, rest)?;
        rest = &rest[n..];
    }
    Ok(())
}

// With how many words a program was started, its own name among them, as far as it has to know: one, or more.
pub fn words<E: Env>(env: &E) -> usize
    ensures { 1 ≤ result }
{
    let mut area = [0u8; 256];
    match env.arg(1, &mut area) {
        Err(FillError::NotPresent) => 1,
        _ => 2,
    }
}

// Whether a program that takes no argument was given one: it was started with so many words, its own name among them. Then it is told how the program is used.
pub fn misused(rt: &HostRuntime, words: usize, usage: &[u8]) -> bool
    ensures { result ≡ ltb 1 words }
{
    let given = words > 1;
    if given {
        say(rt, usage);
    }
    given
}

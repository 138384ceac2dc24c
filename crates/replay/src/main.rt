// The replay program: a trace on standard input, a line for each event on standard output.
#![tactic(auto)]

use trace::Lines;

fn main(rt: HostRuntime) {
    trace_session::program(
        &rt,
        streams::words(&rt),
        &Lines,
        b"usage: replay < TRACE\nA trace in octets on standard input; its lines on standard output. See egrynnol(1).\n",
        b"replay: cannot read",
        b"replay: cannot write",
    );
}

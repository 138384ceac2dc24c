// The totals program: a trace on standard input; on standard output a heading for each opening, and under it a line for each association that it took segments of.
#![tactic(auto)]

use trace::Totals;

fn main(rt: HostRuntime) {
    trace_session::program(
        &rt,
        streams::words(&rt),
        &Totals,
        b"usage: totals < TRACE\nA trace in octets on standard input; the totals of each opening on standard output. See egrynnol(1).\n",
        b"totals: cannot read",
        b"totals: cannot write",
    );
}

// The records program: a trace on standard input; on standard output a line for each event, with its number and its decision, and under it its records in full.
#![tactic(auto)]

use trace::Records;

fn main(rt: HostRuntime) {
    trace_session::program(
        &rt,
        streams::words(&rt),
        &Records,
        b"usage: records < TRACE\nA trace in octets on standard input; its events and their records on standard output. See egrynnol(1).\n",
        b"records: cannot read",
        b"records: cannot write",
    );
}

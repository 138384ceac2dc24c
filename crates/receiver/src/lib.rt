// Receiving: the calls of the paper's section, under one roof.
#![tactic(auto)]

// A segment arrives at a time: the clock's work, and then the segment's.
pub use receive_arrival::arrival;

// The clock goes on, and every sequence that has grown too old is lost.
pub use receive_clock::clock;

// Every sequence of an association is lost.
pub use receive_clock::release;

// What a segment delivered: a part of its octets or a part of the store, according to its decision.
pub use receive_delivery::delivery;

// The types of document 01. No code: what the calls do with them is in specs/; specs/Lib.antt says which section of the paper is where.
#![tactic(auto)]

// The paper's numbers, each here alone: places, the octets of a place's stretch of the store, of the store, of a record, of a report for every place and of one for an arrival; the most
// octets of data, of a parameter and of an address.
pub const PLACES: usize = 16;

pub const STRETCH: usize = 2048;

pub const STORE: usize = PLACES * STRETCH;

pub const RECORD: usize = 53;

pub const REPORT: usize = PLACES * RECORD;

pub const REPORT_ARRIVAL: usize = (PLACES + 1) * RECORD;

pub const DATA: usize = 2048;

pub const PARAMETER: usize = 255;

pub const ADDRESS: usize = 20;

// The kinds of a record: Delivered and Lost.
pub const DELIVERED: u8 = 18;

pub const LOST: u8 = 19;

// A summary: so many rows, so many numbers in all, and the most that a total may become.
pub const ROWS: usize = 64;

pub const SUMMARY: usize = 8 * ROWS;

pub const TOTAL: u64 = 9223372036854775808;

// Segments remaining, local reference and context are separate numbers, and none stands for another.
#[repr(C)]
#[derive(Clone, Copy, PartialEq, Eq)]
pub struct Remaining(pub u8);

#[repr(C)]
#[derive(Clone, Copy, PartialEq, Eq)]
pub struct Reference(pub u8);

#[repr(C)]
#[derive(Clone, Copy, PartialEq, Eq)]
pub struct Context(pub u16);

// An address: its octets, zero filled, and its length. Both tell addresses apart.
#[repr(C)]
#[derive(Clone, Copy, PartialEq, Eq)]
pub struct Address {
    pub octets: [u8; ADDRESS],
    pub length: u8,
}

// What names a sequence.
#[repr(C)]
#[derive(Clone, Copy, PartialEq, Eq)]
pub struct Key {
    pub association: u16,
    pub context: Context,
    pub origin: Address,
    pub destination: Address,
    pub reference: Reference,
}

// One sequence. mark is 1 where it is open; a free place is all zero. start is the time of the first segment.
#[repr(C)]
#[derive(Clone, Copy)]
pub struct Place {
    pub key: Key,
    pub octets: u16,
    pub start: u32,
    pub mark: u8,
    pub instruction: u8,
    pub remaining: Remaining,
    pub segments: u8,
}

// A registered context and its kind, 1 (of 1998) or 2 (of 2000); an unused entry is all zero.
#[repr(C)]
#[derive(Clone, Copy)]
pub struct Entry {
    pub context: Context,
    pub kind: u8,
}

// All that is kept between calls, beside the lent store. Any bits are a value of it: no bool, no enum.
#[repr(C)]
#[derive(Clone, Copy)]
pub struct Table {
    pub places: [Place; PLACES],
    pub registry: [Entry; 8],
    pub timer: u32,
    pub clock: u32,
}

// What is made of a delivery or a loss. Reference 255 is an unsegmented parameter.
#[derive(Clone, Copy)]
pub struct Record {
    pub key: Key,
    pub octets: u16,
    pub kind: u8,
    pub instruction: u8,
    pub cause: u8,
    pub segments: u8,
}

// A refusal: its number, 0 for none, and the position of the octet at fault, or NOWHERE.
pub const NOWHERE: u16 = 65535;

#[derive(Clone, Copy)]
pub struct Fault {
    pub number: u8,
    pub position: u16,
}

// What a parameter's octets 1 to 3a say, with the kind of its context. It is unsegmented where it is new and none remains.
#[derive(Clone, Copy)]
pub struct Heading {
    pub context: Context,
    pub kind: u8,
    pub instruction: u8,
    pub new: bool,
    pub remaining: Remaining,
    pub reference: Reference,
}

// An address where it stands in a parameter: the position of its first octet, and its length.
#[derive(Clone, Copy)]
pub struct Span {
    pub at: usize,
    pub length: u8,
}

// The fields of a parameter. The addresses and the information stay where they are in it.
#[derive(Clone, Copy)]
pub struct Fields {
    pub heading: Heading,
    pub origin: Span,
    pub destination: Span,
    pub information: usize,
}

// Where delivered octets are: from start on in the parameter, or from the start of a place's stretch of the store.
#[derive(Clone, Copy)]
pub enum Part {
    OfParameter { start: usize, length: usize },
    OfStore { place: usize, length: usize },
}

// The first line that applies to a segment.
#[derive(Clone, Copy)]
pub enum Line {
    Unsegmented,
    Broken(u8),
    Restart,
    Start,
    Final,
    Next,
}

// What became of a segment.
#[derive(Clone, Copy)]
pub enum Decision {
    Refused,
    Saved(usize),
    Delivered(Part),
    Lost(u8, Option<usize>),
}

// The answers of the calls. A refusal of 0 is none; an arrival's has the position of the octet at fault too, or NOWHERE, and how many of the records are the clock's: they stand first.
#[derive(Clone, Copy)]
pub struct Received {
    pub table: Table,
    pub decision: Decision,
    pub position: u16,
    pub refusal: u8,
    pub records: u8,
    pub timeouts: u8,
}

#[repr(C)]
#[derive(Clone, Copy)]
pub struct Swept {
    pub table: Table,
    pub refusal: u8,
    pub records: u8,
}

#[repr(C)]
#[derive(Clone, Copy)]
pub struct Opened {
    pub table: Table,
    pub refusal: u8,
}

#[repr(C)]
#[derive(Clone, Copy)]
pub struct Sent {
    pub refusal: u8,
    pub count: u8,
    pub length: u16,
}

// What sending is asked for, beside addresses and data.
#[repr(C)]
#[derive(Clone, Copy)]
pub struct Request {
    pub context: Context,
    pub instruction: u8,
    pub reference: Reference,
    pub room1: usize,
    pub room: usize,
    pub number: usize,
}

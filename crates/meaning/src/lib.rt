// The shapes of the answers that the calls hand back. What each of them means stands in specs/.
#![tactic(auto)]

ghost use Rattle.std.specs.Prelude.{◌≡◌};
ghost use Rattle.meaning.specs.Refusals.{number, place_of};

// A constant taken apart: sign × 2^shift × odd. Zero has sign 0, shift 0 and odd 0.
#[derive(Clone, Copy)]
pub struct Parts {
    pub sign: i32,
    pub shift: u32,
    pub odd: u32,
}

// What an operation makes: n, r and its value.
#[derive(Clone, Copy)]
pub struct Made {
    pub n: i64,
    pub r: u32,
    pub value: u32,
}

// The ranges of the bit limit and of the input width (specs/Limits.antt).
pub const LEAST_BITS: usize = 2;

pub const MOST_BITS: usize = 16;

pub const LEAST_WIDTH: usize = 2;

pub const MOST_WIDTH: usize = 32;

// How many targets a list has, and how many rows a graph, at most (specs/Limits.antt).
pub const MOST_TARGETS: usize = 16;

pub const MOST_ROWS: usize = 128;

// The indices of a full graph: the input and the rows. A ready list is as long at most.
pub const MOST_READY: usize = MOST_ROWS + 1;

// How many words a row of a graph has, and a full graph (specs/Graph.antt).
pub const ROW_LENGTH: usize = 7;

pub const FULL_LENGTH: usize = ROW_LENGTH * MOST_ROWS;

// A graph's row, its words in their order.
#[derive(Clone, Copy)]
pub struct Row {
    pub u: u32,
    pub v: u32,
    pub l1: u32,
    pub l2: u32,
    pub s: u32,
    pub r: u32,
    pub value: u32,
}

// A choice of operands for a row: their indices, shifts and sign, and r.
#[derive(Clone, Copy)]
pub struct Choice {
    pub u: u32,
    pub v: u32,
    pub l1: u32,
    pub l2: u32,
    pub s: u32,
    pub r: u32,
}

// A prefix of a canonic form that ends at a nonzero digit: the one before it, the gap between their last digits,
// s = 0 for digit 1 and 1 for digit -1, and its value.
#[derive(Clone, Copy, Default)]
pub struct Prefix {
    pub before: u32,
    pub gap: u32,
    pub s: u32,
    pub value: u32,
}

// A line of the table of refusals, with its place where it has one (specs/Refusals.antt has the numbers).
#[derive(Clone, Copy)]
pub enum Refusal {
    Bits,
    List,
    OddPart(u32),
    Buffer,
    RowCount,
    Row(u32),
    Unserved(u32),
    TooManyRows,
    Width,
    Ready(u32),
    Target,
    Job(u32),
}

impl Refusal {
    pub fn number(self) -> u32
        ensures { result ≡ number self }
    {
        match self {
            Refusal::Bits => 1,
            Refusal::List => 2,
            Refusal::OddPart(_) => 3,
            Refusal::Buffer => 4,
            Refusal::RowCount => 5,
            Refusal::Row(_) => 6,
            Refusal::Unserved(_) => 7,
            Refusal::TooManyRows => 8,
            Refusal::Width => 9,
            Refusal::Ready(_) => 10,
            Refusal::Target => 11,
            Refusal::Job(_) => 12,
        }
    }

    pub fn place(self) -> u32
        ensures { result ≡ place_of self }
    {
        match self {
            Refusal::Bits => 0,
            Refusal::List => 0,
            Refusal::OddPart(p) => p,
            Refusal::Buffer => 0,
            Refusal::RowCount => 0,
            Refusal::Row(p) => p,
            Refusal::Unserved(p) => p,
            Refusal::TooManyRows => 0,
            Refusal::Width => 0,
            Refusal::Ready(p) => p,
            Refusal::Target => 0,
            Refusal::Job(p) => p,
        }
    }
}

// How far a constant is from a list.
#[derive(Clone, Copy)]
pub enum Far {
    Zero,
    One,
    Two,
    Beyond,
}

// What a job and a listing say first: the bit limit, the input width, and whether the row lines are ordered by width.
#[derive(Clone, Copy)]
pub struct Head {
    pub bits: i32,
    pub input: i32,
    pub by_width: bool,
}

// The lines that a job and a listing share (specs/Forms.antt).
pub const BITS_FORM: [u8; 7] = *b"bits=#\n";

pub const INPUT_FORM: [u8; 8] = *b"input=#\n";

pub const BY_WIDTH: [u8; 13] = *b"report=width\n";

pub const BY_ROW: [u8; 11] = *b"report=row\n";

// How many bytes a job may have; each of its targets takes two of them.
pub const JOB_BYTES: usize = 256;

pub const JOB_TARGETS: usize = JOB_BYTES / 2;

// How many bytes the lines above the rows, a row line and an out line take at most, and all that a job can be answered (specs/Listing.antt).
pub const HEAD_ROOM: usize = 49;

pub const ROW_LINE_ROOM: usize = 63;

pub const OUT_LINE_ROOM: usize = 41;

pub const TEXT_ROOM: usize = HEAD_ROOM + MOST_ROWS * ROW_LINE_ROOM + MOST_TARGETS * OUT_LINE_ROOM;

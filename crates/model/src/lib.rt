// What the machine keeps: its state, its rows, its entries and the heads of its buffers; and what its calls return.
#![tactic(auto)]

use map::{Address, Cell};
use port::Reply;

// The state goes in and comes back by value; everything else is lent. By default, that of the first cycle after a fresh start.
#[derive(Clone, Copy, Default)]
pub struct State {
    // The cycle number modulo 2^32.
    pub stamp: u32,
    // The cycle number modulo m, kept apart from the stamp.
    pub turn: u32,
    // The place of this cycle's row, kept apart from the stamp.
    pub position: u32,
    pub stopped: bool,
}

// How many numbers each lent slice has.
#[derive(Clone, Copy)]
pub struct Lengths {
    pub memory: u32,
    pub rows: u32,
    pub entries: u32,
    pub heads: u32,
}

// A row of the reservation table: a number of each column of the lent row room.
#[derive(Clone, Copy)]
pub struct Row {
    pub kind: u32,
    pub address: Address,
    pub word: u32,
    pub link: u32,
}

impl Row {
    pub const NUMBERS: usize = 4;

    // The columns, one after another: c kinds, c addresses, c links, c words.
    pub const KINDS: usize = 0;

    pub const ADDRESSES: usize = 1;

    pub const LINKS: usize = 2;

    pub const WORDS: usize = 3;

    pub const EMPTY: u32 = 0;

    pub const WRITE: u32 = 1;

    // A read with its word.
    pub const READ: u32 = 2;

    // A read still lacking its word: its link is the row whose entry is in the buffer.
    pub const WAITING: u32 = 3;
}

// An entry of a request buffer: its numbers stand in the lent entry room one after another.
#[derive(Clone, Copy)]
pub struct Entry {
    pub kind: u32,
    pub row: u32,
    pub cell: Cell,
    pub word: u32,
}

impl Entry {
    pub const NUMBERS: usize = 4;

    // The kind comes first, then the others.
    pub const ROW: usize = 1;

    pub const CELL: usize = 2;

    pub const WORD: usize = 3;

    pub const READ: u32 = 0;

    pub const WRITE: u32 = 1;
}

// The head of a request buffer: its numbers stand in the lent head room one after another.
#[derive(Clone, Copy)]
pub struct Head {
    // The place of the oldest entry.
    pub oldest: u32,
    pub count: u32,
}

impl Head {
    pub const NUMBERS: usize = 2;

    // The oldest place comes first, then the count.
    pub const COUNT: usize = 1;
}

// What an operation is to do at its arrival: the row that it fills, and the entry that it places, if any.
#[derive(Clone, Copy)]
pub struct Plan {
    pub row: Row,
    pub placing: Option<Entry>,
}

// What a cycle returns.
#[derive(Clone, Copy)]
pub struct Cycled {
    pub state: State,
    pub reply: Reply,
}

// What a fresh start returns.
#[derive(Clone, Copy)]
pub struct Started {
    pub answer: u32,
    pub state: State,
}

// What a question returns: how many entries wait at one bank.
#[derive(Clone, Copy)]
pub struct Waiting {
    pub answer: u32,
    pub count: u32,
}

// What goes in and out of the port in one cycle.
#![tactic(auto)]

use map::Address;

// What arrives: nothing, a read of an address, or a write of a word to an address.
#[derive(Clone, Copy)]
pub enum Operation {
    Idle,
    Read(Address),
    Write(Address, u32),
}

// What leaves: nothing, a read that still lacks its word, or a word.
#[derive(Clone, Copy)]
pub enum Delivery {
    None,
    Unready,
    Word(u32),
}

// What a cycle's call returns: the answer number, what leaves, and the stamp of this cycle.
#[derive(Clone, Copy)]
pub struct Reply {
    pub answer: u32,
    pub delivery: Delivery,
    pub stamp: u32,
}

// The request buffers: each bank's buffer is handled through its own part of the lent entry room.
#![tactic(auto)]

ghost use Rattle.std.specs.Prelude.{◌≡◌, ◌+◌, ◌*◌, ◌^◌, ◌≤◌, ◌<◌, eqb, length};
ghost use Rattle.setup.specs.Setup.{map_of};
ghost use Rattle.map.specs.Map.{bank_of};
ghost use Rattle.rings.specs.Places.{onward};
ghost use Rattle.model.specs.Lent.{entry_numbers, buffers_in, entry_at, put_entry, count_of};
ghost use Rattle.model.specs.Cycle.{oldest_entry, placed_at, placed};
ghost use Rattle.buffers.specs.Bank.{part_start, Buffer};

use heads::{count_at, head_at, put_head};
use map::Cell;
use model::{Entry, Head};
use rings::{onward, put_four};
use setup::Setup;
use std::ops::Range;

// One buffer: `part` has its k places, and the place after the last is the first.

// The entry at place i.
fn entry_at(part: &[u32], i: usize) -> Entry
    requires { entry_numbers * i + entry_numbers ≤ length part.now }
    ensures { result ≡ entry_at part.now i }
{
    let at = Entry::NUMBERS * i;
    Entry {
        kind: part[at],
        row: part[at + Entry::ROW],
        cell: Cell(part[at + Entry::CELL]),
        word: part[at + Entry::WORD],
    }
}

// The entry that has waited longest.
fn oldest_of(part: &[u32], head: Head) -> Entry
    requires { entry_numbers * head.oldest + entry_numbers ≤ length part.now }
    ensures { result ≡ entry_at part.now head.oldest }
{
    entry_at(part, head.oldest as usize)
}

// First in, first out: the entry goes behind the last of those that wait.
fn push(part: &mut [u32], k: usize, head: Head, e: Entry)
    requires { (length part.old ≡ entry_numbers * k) × (head.oldest < k) × (head.count < k) × (k ≤ 128) }
    ensures { part.new ≡ put_entry part.old (onward k head.oldest head.count) e }
{
    let at = onward(k, head.oldest as usize, head.count as usize);
    put_four(part, at, e.kind, e.row, e.cell.0, e.word);
}

// The banks: bank b's part is cut out of the middle of the entry room.

// Where bank b's part begins in the entry room, and where it ends.
pub fn part(s: Setup, b: usize) -> Range<usize>
    requires { part_start s b + entry_numbers * s.k < 2 ^ 64 }
    ensures { (result.start ≡ part_start s b) × (result.end ≡ part_start s b + entry_numbers * s.k) }
{
    let k = s.k as usize;
    let start = Entry::NUMBERS * (b * k);
    start..start + Entry::NUMBERS * k
}

// The oldest entry of bank b's buffer.
#[tactic(auto, using(crate::proofs::Banks::oldest_left))]
pub fn oldest_entry(s: Setup, b: usize, entries: &[u32], heads: &[u32]) -> Entry
    requires { Buffer s b (buffers_in entries.now heads.now) }
    ensures { result ≡ oldest_entry s b (buffers_in entries.now heads.now) }
{
    oldest_of(&entries[part(s, b)], head_at(heads, b))
}

// A buffer is full when it holds K.
fn full(s: Setup, count: u32) -> bool
    requires { count ≤ s.k }
    ensures { result ≡ eqb count s.k }
{
    count == (s.k as u32)
}

// Places an entry in bank b's buffer, which is not full.
fn place_at(s: Setup, b: usize, e: Entry, entries: &mut [u32], heads: &mut [u32])
    requires { Buffer s b (buffers_in entries.old heads.old) × (count_of heads.old b < s.k) }
    ensures { buffers_in entries.new heads.new
        ≡ placed_at s b e (buffers_in entries.old heads.old) }
{
    let head = head_at(heads, b);
    push(&mut entries[part(s, b)], s.k as usize, head, e);
    let count = head.count + 1;
    put_head(heads, b, Head { count, ..head });
}

// Places an entry in the buffer of its cell's bank; false, and nothing changed, where that holds K.
#[tactic(auto, using(crate::proofs::Banks::place_full, crate::proofs::Banks::place_free))]
pub fn place(s: Setup, e: Entry, entries: &mut [u32], heads: &mut [u32]) -> bool
    requires { Buffer s (bank_of (map_of s) e.cell) (buffers_in entries.old heads.old) }
    ensures { (result, buffers_in entries.new heads.new)
        ≡ placed s e (buffers_in entries.old heads.old) }
{
    let b = e.cell.bank(s.map()) as usize;
    if full(s, count_at(heads, b)) {
        return false;
    }
    place_at(s, b, e, entries, heads);
    true
}

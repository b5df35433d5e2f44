// The range check of the request buffers: the heads of all, and the entries that wait.
#![tactic(auto)]

ghost use Rattle.std.specs.Prelude.{◌≡◌, true, ◌&&◌, ◌+◌, ◌-◌, ◌*◌, ◌/◌, ◌≤◌, ◌<◌, ltb, length};
ghost use Rattle.setup.specs.Setup.{Ranges, words_of, banks_of};
ghost use Rattle.model.specs.Lent.{entry_numbers, head_numbers, buffers_in, entry_at, count_of};
ghost use Rattle.model.specs.Range.{entry_ok, entries_ok, buffers_ok, Room, HeadsOk};
ghost use Rattle.buffers.specs.Bank.{Buffer};
ghost use Rattle.entries.specs.Entries.{part_ok};

use buffers::part;
use heads::{count_at, head_at, next_waiting};
use model::{Entry, Head};
use rings::next;
use setup::Setup;

// A kind that is coded, a cell below n, and of a read entry a row below c. A write entry names row 0, so the last test nearly never comes to the kind.
fn entry_ok(part: &[u32], i: usize, n: u32, c: u32) -> bool
    requires { entry_numbers * i + entry_numbers ≤ length part.now }
    ensures { result ≡ entry_ok n c (entry_at part.now i) }
{
    let at = Entry::NUMBERS * i;
    let kind = part[at];
    kind <= Entry::WRITE
        && part[at + Entry::CELL] < n
        && (part[at + Entry::ROW] < c || kind != Entry::READ)
}

// The waiting entries of a buffer of k places, from the oldest on.
#[tactic(auto, using(crate::proofs::Waiting::at_first, crate::proofs::Waiting::at_next, crate::proofs::Waiting::part_more, crate::proofs::Waiting::part_out, crate::proofs::Waiting::part_all), unfolding(crate::specs::Entries::part_ok))]
fn part_ok(part: &[u32], k: usize, head: Head, n: u32, c: u32) -> bool
    requires { (length part.now ≡ entry_numbers * k) × (head.oldest < k) × (head.count ≤ k) × (k ≤ 128) }
    ensures { result ≡ part_ok n c k head.oldest part.now head.count }
{
    let mut at = head.oldest as usize;
    for _ in 0..head.count {
        if !entry_ok(part, at, n, c) {
            return false;
        }
        at = next(k, at);
    }
    true
}

// The entries that wait at bank b, whose head is in range; of n words.
#[tactic(auto, using(crate::proofs::Waiting::waiting_left))]
fn waiting_ok(s: Setup, n: u32, b: usize, entries: &[u32], heads: &[u32]) -> bool
    requires { Buffer s b (buffers_in entries.now heads.now) × (n ≡ words_of s) }
    ensures { result
        ≡ entries_ok s (buffers_in entries.now heads.now) b (count_of heads.now b) }
{
    let head = head_at(heads, b);
    part_ok(&entries[part(s, b)], s.k as usize, head, n, s.c as u32)
}

// Of each buffer, whose heads are in range, the entries that wait; of n words.
fn each_ok(s: Setup, n: u32, entries: &[u32], heads: &[u32]) -> bool
    requires { Ranges s × Room s (buffers_in entries.now heads.now) × HeadsOk s heads.now × (n ≡ words_of s) }
    ensures { result ≡ buffers_ok s (buffers_in entries.now heads.now) (banks_of s) }
{
    let banks = s.banks() as usize;
    let mut b = next_waiting(heads, 0, banks);
    while b < banks {
        if !waiting_ok(s, n, b, entries, heads) {
            return false;
        }
        b = next_waiting(heads, b + 1, banks);
    }
    true
}

// Whether more than half the places of the first and of the last bank wait: in most runs most places then do.
fn crowded(s: Setup, heads: &[u32]) -> bool
    requires { Ranges s × (length heads.now ≡ head_numbers * banks_of s) }
    ensures { result
        ≡ ltb (s.k / 2) (count_of heads.now 0)
        && ltb (s.k / 2) (count_of heads.now (banks_of s - 1)) }
{
    let half = (s.k as u32) / 2;
    let last = s.banks() as usize - 1;
    (half < count_at(heads, 0)) & (half < count_at(heads, last))
}

// The same: where many wait, yes at once if every place of the entry room is in range as it stands, whether it waits or not.
#[tactic(auto, using(crate::proofs::Waiting::all_plain))]
fn all_ok(s: Setup, n: u32, entries: &[u32], heads: &[u32]) -> bool
    requires { Ranges s × Room s (buffers_in entries.now heads.now) × HeadsOk s heads.now × (n ≡ words_of s) }
    ensures { result ≡ buffers_ok s (buffers_in entries.now heads.now) (banks_of s) }
{
    if crowded(s, heads) {
        let places = entries.len() / Entry::NUMBERS;
        if lanes::fours_below(entries, places, Entry::WRITE + 1, s.c as u32, n) {
            return true;
        }
    }
    each_ok(s, n, entries, heads)
}

// Each of the B buffers, of n words: the heads all at once, oldest places below K and counts at most K, then what waits, if anything does.
#[tactic(auto, using(crate::proofs::Waiting::told_none, crate::proofs::Waiting::told_below, crate::proofs::Waiting::told_out))]
pub fn buffers_ok(s: Setup, n: u32, entries: &[u32], heads: &[u32]) -> bool
    requires { Ranges s × Room s (buffers_in entries.now heads.now) × (n ≡ words_of s) }
    ensures { result ≡ buffers_ok s (buffers_in entries.now heads.now) (banks_of s) }
{
    let banks = s.banks() as usize;
    let k = s.k as u32;
    let told = lanes::pairs(heads, banks, k, k + 1);
    if told.none {
        return true;
    }
    if told.below {
        return all_ok(s, n, entries, heads);
    }
    false
}

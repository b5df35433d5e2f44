// Lookups in the reservation table: the newest live row of an address, and the newest live write to it.
// A look at a whole block of the addresses spares the rows of one that does not have the address.
#![tactic(auto)]

ghost use Rattle.std.specs.Prelude.{◌≡◌, ℕ, Bool, false, not, eqb, length, ◌*◌, ◌+◌, ◌-◌, ◌≤◌, ◌<◌};
ghost use Rattle.flat.specs.Flat.{block};
ghost use Rattle.model.specs.Lent.{row_numbers, row_at, empty_kind, write_kind};
ghost use Rattle.model.specs.Cycle.{scan, is_of, writes};
ghost use Rattle.model.specs.Range.{Within};
ghost use Rattle.lookup.specs.Lookup.{wanted, last_wanted, Alone, Nearby};

use map::Address;
use model::Row;
use table::Table;

// The kinds of row that a lookup asks for.
trait Kinds {
    ghost includes: { ℕ → Bool };

    fn includes(kind: u32) -> bool
        ensures { result ≡ includes kind };
}

// Every row that is not empty.
struct Live;

impl Kinds for Live {
    ghost includes = { λ kind. not (eqb kind empty_kind) };

    fn includes(kind: u32) -> bool {
        kind != Row::EMPTY
    }
}

struct Writes;

impl Kinds for Writes {
    ghost includes = { λ kind. eqb kind write_kind };

    fn includes(kind: u32) -> bool {
        kind == Row::WRITE
    }
}

// A row of this address, of a kind that is asked for. Whole addresses are compared, and first: most rows differ there.
fn wanted<K: Kinds>(t: Table, i: usize, a: Address) -> bool
    requires { i < t.c }
    ensures { result ≡ wanted K.includes a (row_at t.entry.c t.entry.rows.now i) }
{
    (t.addresses()[i] == a.0) && K::includes(t.kinds()[i])
}

// The last such row from one place up to another, row by row.
fn scan_few<K: Kinds>(t: Table, from: usize, to: usize, a: Address) -> Option<usize>
    requires { (from ≤ to) × (to ≤ t.c) }
    ensures { result ≡ last_wanted K.includes a t.entry from to }
{
    for i in (from..to).rev() {
        if wanted::<K>(t, i, a) {
            return Some(i);
        }
    }
    None
}

// The last such row from one place up to another of the block from place `low` on: row by row only where one of the block has
// the address.
fn scan_block<K: Kinds>(t: Table, low: usize, from: usize, to: usize, a: Address) -> Option<usize>
    requires { (low ≤ from) × (from ≤ to) × (to ≤ low + block) × (low + block ≤ t.c) }
    ensures { result ≡ last_wanted K.includes a t.entry from to }
{
    if flat::times(&t.addresses()[low..low + flat::BLOCK], a.0) == 0 {
        return None;
    }
    scan_few::<K>(t, from, to, a)
}

// The last such row from one place up to another: straight down by blocks, so that no step has to look for the end of the table.
fn scan_part<K: Kinds>(t: Table, from: usize, to: usize, a: Address) -> Option<usize>
    requires { (block ≤ t.c) × (from ≤ to) × (to ≤ t.c) }
    ensures { result ≡ last_wanted K.includes a t.entry from to }
{
    let mut i = to;
    while flat::BLOCK <= i - from {
        let low = i - flat::BLOCK;
        if let Some(j) = scan_block::<K>(t, low, low, i, a) {
            return Some(j);
        }
        i = low;
    }
    if i <= from {
        return None;
    }
    scan_block::<K>(t, flat::block_of(i), from, i, a)
}

// Where a block with the row at the position begins.
fn block_with(position: usize, c: usize) -> usize
    requires { (block ≤ c) × (position < c) }
    ensures { (result ≤ position) × (position < result + block) × (result + block ≤ c) }
{
    (position - position % flat::BLOCK).min(c - flat::BLOCK)
}

// Whether a row of the block from place `low` on, other than the row at the position, has the address.
fn near(t: Table, position: usize, low: usize, a: Address) -> bool
    requires { (low ≤ position) × (position < low + block) × (low + block ≤ t.c) }
    ensures { result ≡ false → Alone t.entry position low a }
{
    let addresses = t.addresses();
    let hits = flat::times(&addresses[low..low + flat::BLOCK], a.0);
    if addresses[position] == a.0 {
        return 1 < hits;
    }
    0 < hits
}

// The last such row below the position: row by row in its own block only where that is known to have one.
fn scan_below<K: Kinds>(
    t: Table,
    position: usize,
    low: usize,
    there: bool,
    a: Address,
) -> Option<usize>
    requires { Nearby t position low a there }
    ensures { result ≡ last_wanted K.includes a t.entry 0 position }
{
    if there {
        if let Some(i) = scan_few::<K>(t, low, position, a) {
            return Some(i);
        }
    }
    scan_part::<K>(t, 0, low, a)
}

// The last such row above the position: its own block comes last.
fn scan_above<K: Kinds>(
    t: Table,
    position: usize,
    low: usize,
    there: bool,
    a: Address,
) -> Option<usize>
    requires { Nearby t position low a there }
    ensures { result ≡ last_wanted K.includes a t.entry (position + 1) t.entry.c }
{
    let high = low + flat::BLOCK;
    if let Some(i) = scan_part::<K>(t, high, t.c, a) {
        return Some(i);
    }
    if there {
        return scan_few::<K>(t, position + 1, high, a);
    }
    None
}

// The first such row before the position, going round: below it, else above it; a table that is shorter than a block row by row.
fn scan<K: Kinds>(t: Table, position: usize, a: Address) -> Option<usize>
    requires { position < t.c }
    ensures { result ≡ scan (wanted K.includes a) t.entry.c t.entry.rows.now (t.entry.c - 1) position }
{
    if t.c < flat::BLOCK {
        return scan_few::<K>(t, 0, position, a).or_else(|| scan_few::<K>(t, position + 1, t.c, a));
    }
    let low = block_with(position, t.c);
    let there = near(t, position, low, a);
    scan_below::<K>(t, position, low, there, a).or_else(|| scan_above::<K>(
        t, position, low, there, a,
    ))
}

// The same, apart from its callers: a cycle that looks nothing up does not pay for it. The lent rows are passed in registers, a
// table would be passed in memory.
#[inline(never)]
fn scan_apart<K: Kinds>(rows: &[u32], c: usize, position: usize, a: Address) -> Option<usize>
    requires { (length rows.now ≡ row_numbers * c) × (position < c) }
    ensures { result ≡ scan (wanted K.includes a) c rows.now (c - 1) position }
{
    scan::<K>(Table::new(rows, c), position, a)
}

// The newest live row of this address, as the row at the position arrives.
pub fn newest_live(t: Table, position: usize, a: Address) -> Option<usize>
    requires { position < t.c }
    ensures { (result ≡ scan (is_of a) t.entry.c t.entry.rows.now (t.entry.c - 1) position) × Within t.entry.c result }
{
    scan_apart::<Live>(t.rows, t.c, position, a)
}

// The newest live write to this address, as the row at the position retires.
pub fn newest_write(t: Table, position: usize, a: Address) -> Option<usize>
    requires { position < t.c }
    ensures { (result ≡ scan (writes a) t.entry.c t.entry.rows.now (t.entry.c - 1) position) × Within t.entry.c result }
{
    scan_apart::<Writes>(t.rows, t.c, position, a)
}

// Filling: the word that service brings goes to every row that lacks it.
// A look at a whole block of the links spares the rows of one that does not name the row.
#![tactic(auto)]

ghost use Rattle.std.specs.Prelude.{◌≡◌, ◌+◌, ◌-◌, ◌*◌, ◌≤◌, ◌<◌, length};
ghost use Rattle.flat.specs.Flat.{block};
ghost use Rattle.model.specs.Lent.{row_numbers};
ghost use Rattle.model.specs.Cycle.{lacks, with_word, filled_row, filled_below};
ghost use Rattle.filling.specs.Filling.{Has, filled_from};

use model::Row;
use table::Table;

// Row p, or a row that waits on it, where it still lacks its word. Most rows wait for none, so that is looked at first.
fn lacks(r: Row, i: u32, p: u32) -> bool
    ensures { result ≡ lacks p i r }
{
    (r.kind == Row::WAITING) && ((i == p) | (r.link == p))
}

// A read with its word.
fn with_word(r: Row, w: u32) -> Row
    ensures { result ≡ with_word r w }
{
    let address = r.address;
    Row {
        kind: Row::READ,
        address,
        word: w,
        link: 0,
    }
}

// Row p's entry has brought the word w: row i gets it, if it lacks it.
fn fill_row(rows: &mut [u32], c: usize, i: usize, p: u32, w: u32)
    requires { (length rows.old ≡ row_numbers * c) × (i < c) × (c ≤ 4096) }
    ensures { rows.new ≡ filled_row c p w i rows.old }
{
    let r = Table::new(rows, c).row(i);
    if lacks(r, i as u32, p) {
        table::put_row(rows, c, i, with_word(r, w));
    }
}

// The rows from one place up to another, row by row.
fn fill_few(rows: &mut [u32], c: usize, from: usize, to: usize, p: u32, w: u32)
    requires { (length rows.old ≡ row_numbers * c) × (from ≤ to) × (to ≤ c) × (c ≤ 4096) }
    ensures { rows.new ≡ filled_from c p w from (to - from) rows.old }
{
    for i in from..to {
        fill_row(rows, c, i, p, w);
    }
}

// The rows from one place up to another that is at most a block on, where row p has its word:
// row by row only where one of the block names row p.
fn fill_block(rows: &mut [u32], c: usize, from: usize, to: usize, p: u32, w: u32)
    requires { (length rows.old ≡ row_numbers * c) × (from ≤ to) × (block ≤ to) × (to ≤ c) × (to ≤ from + block)
        × (c ≤ 4096) × Has c p rows.old }
    ensures { rows.new ≡ filled_from c p w from (to - from) rows.old }
{
    let at = to - flat::BLOCK;
    if flat::times(&Table::new(rows, c).links()[at..at + flat::BLOCK], p) == 0 {
        return;
    }
    fill_few(rows, c, from, to, p, w);
}

// Where the block from place i on ends: at c, if that comes first.
fn block_above(i: usize, c: usize) -> usize
    requires { i < c }
    ensures { (i < result) × (result ≤ i + block) × (result ≤ c) × (block ≤ c → block ≤ result) }
{
    if c - i <= flat::BLOCK {
        return c;
    }
    i + flat::BLOCK
}

// Every row, where row p has its word.
fn fill_others(rows: &mut [u32], c: usize, p: u32, w: u32)
    requires { (length rows.old ≡ row_numbers * c) × (block ≤ c) × (p < c) × (c ≤ 4096) × Has c p rows.old }
    ensures { rows.new ≡ filled_below c p w c rows.old }
{
    let mut i = 0;
    while i < c {
        let to = block_above(i, c);
        fill_block(rows, c, i, to, p, w);
        i = to;
    }
}

// Row p's entry has brought the word w: every row that lacks it gets it. Row p first, since its own block always names it.
pub fn fill(rows: &mut [u32], c: usize, p: u32, w: u32)
    requires { (length rows.old ≡ row_numbers * c) × (p < c) × (c ≤ 4096) }
    ensures { rows.new ≡ filled_below c p w c rows.old }
{
    if c < flat::BLOCK {
        fill_few(rows, c, 0, c, p, w);
        return;
    }
    fill_row(rows, c, p as usize, p, w);
    fill_others(rows, c, p, w);
}

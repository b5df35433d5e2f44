// Flat looks at numbers that stand in rows of two or of four: whether each is below the bound of its column.
#![tactic(auto)]

ghost use Rattle.std.specs.Prelude.{ℕ, ◌≡◌, ◌+◌, ◌-◌, ◌*◌, ◌/◌, ◌≤◌, ◌<◌, bit_or, fold, length, slice_index};
ghost use Rattle.lanes.specs.Lanes.{together, column, pairs_below, pairs_look, fours_below};

// How many rows one look takes in.
const ROUND: usize = 16;

// Puts a row with what is put together already.
fn put<const W: usize>(all: &mut [u32; W], row: &[u32; W])
    ensures { (k : ℕ) → k < W → slice_index all.new k ≡ bit_or (slice_index all.old k) (slice_index row.now k) }
{
    for k in 0..W {
        all[k] |= row[k];
    }
}

// Puts rows with what is put together already: in each column at least each number.
fn put_rows<const W: usize>(all: &mut [u32; W], rows: &[[u32; W]])
    ensures { (k : ℕ) → k < W → slice_index all.new k ≡ fold bit_or (slice_index all.old k) (column k rows.now) }
{
    for row in rows {
        put(all, row);
    }
}

// All rows put together, by rounds, which are loops of constant length.
fn all_together<const W: usize>(rows: &[[u32; W]]) -> [u32; W]
    requires { W ≤ 4 }
    ensures { (k : ℕ) → k < W → slice_index result k ≡ together (column k rows.now) }
{
    let (rounds, rest) = rows.as_chunks::<ROUND>();
    let mut all = [0; W];
    for round in rounds {
        put_rows(&mut all, round);
    }
    put_rows(&mut all, rest);
    all
}

// A look at pairs: whether every first number is below a and every second below b, or even 0.
#[derive(Clone, Copy)]
pub struct Look {
    pub below: bool,
    pub none: bool,
}

// Looks at n pairs: their numbers put together show most of it, and else each pair.
pub fn pairs(part: &[u32], n: usize, a: u32, b: u32) -> Look
    requires { (length part.now ≡ 2 * n) × (0 < b) }
    ensures { result ≡ pairs_look a b part.now n }
{
    let (rows, _) = part[..2 * n].as_chunks::<2>();
    let all = all_together(rows);
    let none = all[1] == 0;
    if (all[0] < a) & (all[1] < b) {
        return Look { below: true, none };
    }
    let below = rows.iter().all(|row| row[0] < a && row[1] < b);
    Look {
        below,
        none: below & none,
    }
}

// Of each of n fours, whether the first number is below a, the second below b and the third below c.
pub fn fours_below(part: &[u32], n: usize, a: u32, b: u32, c: u32) -> bool
    requires { length part.now ≡ 4 * n }
    ensures { result ≡ fours_below a b c part.now n }
{
    let (rows, _) = part[..4 * n].as_chunks::<4>();
    let all = all_together(rows);
    if (all[0] < a) & ((all[1] < b) & (all[2] < c)) {
        return true;
    }
    rows.iter()
        .all(|row| row[0] < a && row[1] < b && row[2] < c)
}

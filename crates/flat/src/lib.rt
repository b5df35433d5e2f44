// Flat looks at a part of a lent room: loops with no way out, which become vector instructions. Each call says all that it answers.
#![tactic(auto)]

ghost use Rattle.std.specs.Prelude.{◌≡◌, ◌+◌, ◌-◌, ◌≤◌, ◌<◌, length};
ghost use Rattle.flat.specs.Flat.{block, times, all_below, UpTo};

// How many numbers one look takes in.
pub const BLOCK: usize = 64;

// The same for a long part, where a look costs less beside its loads.
const WIDE: usize = 256;

// Where a block of the numbers below `to` begins: that many below it, or at the first.
pub fn block_of(to: usize) -> usize
    ensures { result ≡ to - block }
{
    to.saturating_sub(BLOCK)
}

// How many of the numbers of a block are x.
pub fn times(part: &[u32], x: u32) -> u32
    requires { length part.now ≡ block }
    ensures { result ≡ times x part.now }
{
    let mut n = 0;
    for y in part {
        n += u32::from(*y == x);
    }
    n
}

// ---- Every number below a bound

// Where a loop of steps of w numbers ends: from every i below that there are w more.
pub fn steps_end(n: usize, w: usize) -> usize
    requires { 0 < w }
    ensures { result ≡ n + 1 - w }
{
    n.saturating_sub(w - 1)
}

// At least each of N numbers from a place on: their bits put together. N is BLOCK, or WIDE in a long part, which spares a sixth
// of its instructions; the last steps of a part are by blocks.
#[tactic(auto, using(crate::proofs::Flat::upto_one))]
fn together<const N: usize>(part: &[u32], at: usize) -> u32
    requires { at + N ≤ length part.now }
    ensures { UpTo result part.now at N }
{
    let mut o = 0;
    for j in 0..N {
        o |= part[at + j];
    }
    o
}

// At least each number.
#[tactic(auto, using(crate::proofs::Flat::upto_next))]
fn all_together(part: &[u32]) -> u32
    ensures { UpTo result part.now 0 (length part.now) }
{
    let n = part.len();
    let mut o: u32 = 0;
    let mut i = 0;
    let wide_end = steps_end(n, WIDE);
    while i < wide_end {
        o |= together::<WIDE>(part, i);
        i += WIDE;
    }
    let end = steps_end(n, BLOCK);
    while i < end {
        o |= together::<BLOCK>(part, i);
        i += BLOCK;
    }
    while i < n {
        o |= part[i];
        i += 1;
    }
    o
}

// Each number by itself.
fn each_below(part: &[u32], bound: u32) -> bool
    ensures { result ≡ all_below bound part.now }
{
    part.iter().fold(true, |ok, x| ok & (*x < bound))
}

// Whether every number is below the bound: at once where all of them put together are, as always under a power of two.
pub fn all_below(part: &[u32], bound: u32) -> bool
    ensures { result ≡ all_below bound part.now }
{
    all_together(part) < bound || each_below(part, bound)
}

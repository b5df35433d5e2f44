// The heads of the request buffers: of each bank's buffer the place of the oldest entry, and the count.
#![tactic(auto)]

ghost use Rattle.std.specs.Prelude.{◌≡◌, true, ◌+◌, ◌-◌, ◌*◌, ◌≤◌, ◌<◌, length};
ghost use Rattle.model.specs.Lent.{head_numbers, oldest_of, count_of, put_head};
ghost use Rattle.model.specs.Cycle.{popped};
ghost use Rattle.heads.specs.Heads.{HeadThere, GoodHead, Quiet, FirstWaiting};

use model::Head;
use rings::next;
use setup::Setup;

// Bank b's head.
pub fn head_at(heads: &[u32], b: usize) -> Head
    requires { HeadThere b heads.now }
    ensures { (result.oldest ≡ oldest_of heads.now b) × (result.count ≡ count_of heads.now b) }
{
    let at = Head::NUMBERS * b;
    Head {
        oldest: heads[at],
        count: heads[at + Head::COUNT],
    }
}

// How many entries wait at bank b.
pub fn count_at(heads: &[u32], b: usize) -> u32
    requires { HeadThere b heads.now }
    ensures { result ≡ count_of heads.now b }
{
    head_at(heads, b).count
}

// Puts bank b's head.
pub fn put_head(heads: &mut [u32], b: usize, h: Head)
    requires { HeadThere b heads.old }
    ensures { heads.new ≡ put_head heads.old b h.oldest h.count }
{
    let at = Head::NUMBERS * b;
    heads[at] = h.oldest;
    heads[at + Head::COUNT] = h.count;
}

// Bank b's oldest entry is gone: the next is the oldest, and one less waits.
pub fn pop(s: Setup, b: usize, heads: &mut [u32])
    requires { GoodHead s b heads.old × (0 < count_of heads.old b) }
    ensures { heads.new ≡ popped s b heads.old }
{
    let head = head_at(heads, b);
    let oldest = next(s.k as usize, head.oldest as usize) as u32;
    let count = head.count - 1;
    put_head(heads, b, Head { oldest, count });
}

// Nothing waits at four banks from b on: their counts put together are 0.
fn four_quiet(heads: &[u32], b: usize) -> bool
    requires { head_numbers * (b + 4) ≤ length heads.now }
    ensures { result ≡ true → Quiet heads.now b (b + 4) }
{
    (count_at(heads, b) | count_at(heads, b + 1) | count_at(heads, b + 2) | count_at(heads, b + 3))
        == 0
}

// The first bank from b on where something waits, or the number of banks: one by one.
fn next_of_few(heads: &[u32], b: usize, banks: usize) -> usize
    requires { (length heads.now ≡ head_numbers * banks) × (b ≤ banks) }
    ensures { FirstWaiting heads.now b banks result }
{
    for i in b..banks {
        if count_at(heads, i) != 0 {
            return i;
        }
    }
    banks
}

// The same by fours, as long as nothing waits there: at most banks nothing does as a rule.
pub fn next_waiting(heads: &[u32], b: usize, banks: usize) -> usize
    requires { (length heads.now ≡ head_numbers * banks) × (b ≤ banks) }
    ensures { FirstWaiting heads.now b banks result }
{
    let mut i = b;
    while 4 <= banks - i {
        if four_quiet(heads, i) {
            i += 4;
        } else {
            return next_of_few(heads, i, banks);
        }
    }
    next_of_few(heads, i, banks)
}

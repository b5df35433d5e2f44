// A lent room: zeros in all of it, four numbers at a place of it, and steps that go round.
#![tactic(auto)]

ghost use Rattle.std.specs.Prelude.{◌≡◌, ◌+◌, ◌*◌, ◌≤◌, ◌<◌, length, replicate};
ghost use Rattle.rings.specs.Places.{put_four, onward, back};

// Fills the room with zeros.
pub fn clear(room: &mut [u32])
    ensures { room.new ≡ replicate (length room.old) 0 }
{
    room.fill(0);
}

// Puts four numbers at place i.
pub fn put_four(room: &mut [u32], i: usize, a: u32, b: u32, c: u32, d: u32)
    requires { 4 * i + 4 ≤ length room.old }
    ensures { room.new ≡ put_four room.old i a b c d }
{
    let at = 4 * i;
    room[at] = a;
    room[at + 1] = b;
    room[at + 2] = c;
    room[at + 3] = d;
}

// n places on from i, of c.
pub fn onward(c: usize, i: usize, n: usize) -> usize
    requires { (i < c) × (n ≤ c) × (c ≤ 4096) }
    ensures { (result ≡ onward c i n) × (result < c) }
{
    if i + n < c { i + n } else { i + n - c }
}

// The place after i, of c.
pub fn next(c: usize, i: usize) -> usize
    requires { (i < c) × (c ≤ 4096) }
    ensures { (result ≡ onward c i 1) × (result < c) }
{
    if i + 1 < c { i + 1 } else { 0 }
}

// n places back from i, of c.
pub fn back(c: usize, i: usize, n: usize) -> usize
    requires { (i < c) × (n ≤ c) × (c ≤ 4096) }
    ensures { (result ≡ back c i n) × (result < c) }
{
    if i < n { i + c - n } else { i - n }
}

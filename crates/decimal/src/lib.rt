// Numbers in decimal, put into a room.
#![tactic(auto)]

ghost use Rattle.std.specs.Prelude.{◌≡◌, [], ◌∷◌, ◌+◌, ◌≤◌, ◌<◌, length};
ghost use Rattle.decimal.specs.Decimal.{decimal};
ghost use Rattle.decimal.specs.Texts.{Appends};

// A text in a room, which grows at its end.
#[derive(Drop)]
pub struct Text<'a> {
    pub room: &'a mut [u8],
    pub end: usize,
}

impl Text<'_> {
    // Puts a byte behind the text.
    pub fn put_byte(&mut self, byte: u8)
        requires { self.old.end < length self.old.room.now }
        ensures { Appends self.old self.new (byte ∷ []) }
    {
        self.room[self.end] = byte;
        self.end += 1;
    }

    // Puts n in decimal behind the text.
    #[tactic(auto, using(crate::proofs::Digits::length_std, crate::proofs::Digits::number_stored))]
    pub fn put_number(&mut self, n: u64)
        requires { self.old.end + length (decimal n) ≤ length self.old.room.now }
        ensures { Appends self.old self.new (decimal n) }
    {
        self.end += width(n);
        itoa::write_digits(n, self.room, self.end);
    }
}

// How many digits n has.
#[tactic(auto, using(crate::proofs::Digits::length_at))]
fn width(n: u64) -> usize
    ensures { result ≡ length (decimal n) }
{
    n.max(1).ilog10() as usize + 1
}

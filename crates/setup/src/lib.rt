// A setup's nine numbers, their ranges, and the test of them.
#![tactic(auto)]

ghost use Rattle.std.specs.Prelude.{◌≡◌, IfOk};
ghost use Rattle.setup.specs.Setup.{map_of, words_of, banks_of, least_delta, or_default, with_defaults, sizes_ok, rest_ok, checked_of, Sizes, Ranges};

use answers::Refusal;
use map::Map;

#[repr(C)]
#[derive(Clone, Copy, Default)]
pub struct Setup {
    // 0 plain, 1 merging.
    pub mode: u8,
    // Address bits: N = 2^a words.
    pub a: u8,
    // B = 2^s banks.
    pub s: u8,
    // Cycles between two services of one bank.
    pub m: u8,
    // Places in each request buffer.
    pub k: u16,
    // The fixed delay; 0 stands for K·m.
    pub delta: u16,
    // Rows in the reservation table; 0 stands for the delay.
    pub c: u16,
    // The address map.
    pub u: u32,
    pub v: u32,
}

// x, or its default where x is 0.
fn or_default(x: u16, default: u16) -> u16
    ensures { result ≡ or_default x default }
{
    if x == 0 { default } else { x }
}

impl Setup {
    pub const PLAIN: u8 = 0;

    pub const MERGING: u8 = 1;

    pub const MAX_MODE: u8 = Self::MERGING;

    pub const MIN_A: u8 = 1;

    pub const MAX_A: u8 = 20;

    pub const MAX_S: u8 = 6;

    pub const MIN_M: u8 = 1;

    pub const MAX_M: u8 = 64;

    pub const MIN_K: u16 = 1;

    pub const MAX_K: u16 = 128;

    pub const MAX_DELTA: u16 = 4096;

    pub const MAX_C: u16 = 4096;

    // The numbers whose bounds need no other's default: mode, a, s, m and K.
    fn sizes_ok(self) -> bool
        ensures { result ≡ sizes_ok self }
    {
        (self.mode <= Self::MAX_MODE)
            & ((Self::MIN_A <= self.a) & (self.a <= Self::MAX_A))
            & ((self.s <= Self::MAX_S) & (self.s <= self.a))
            & ((Self::MIN_M <= self.m) & (self.m <= Self::MAX_M))
            & ((Self::MIN_K <= self.k) & (self.k <= Self::MAX_K))
    }

    // The four numbers of the address map.
    pub fn map(self) -> Map
        ensures { result ≡ map_of self }
    {
        Map {
            a: self.a,
            s: self.s,
            u: self.u,
            v: self.v,
        }
    }

    // N, the number of words.
    pub fn words(self) -> u32
        requires { Sizes self }
        ensures { result ≡ words_of self }
    {
        self.map().words()
    }

    // B, the number of banks.
    pub fn banks(self) -> u32
        requires { Sizes self }
        ensures { result ≡ banks_of self }
    {
        self.map().banks()
    }

    // K·m, the least delay and its default.
    fn least_delta(self) -> u16
        requires { Sizes self }
        ensures { result ≡ least_delta self }
    {
        self.k * (self.m as u16)
    }

    // The setup with the defaults in place of a zero delay and a zero C.
    fn with_defaults(self) -> Setup
        requires { Sizes self }
        ensures { result ≡ with_defaults self }
    {
        let delta = or_default(self.delta, self.least_delta());
        Setup {
            delta,
            c: or_default(self.c, delta),
            ..self
        }
    }

    // The numbers that another bounds: the delay, C, u and v.
    fn rest_ok(self) -> bool
        requires { Sizes self }
        ensures { result ≡ rest_ok self }
    {
        let n = self.words();
        ((self.least_delta() <= self.delta) & (self.delta <= Self::MAX_DELTA))
            & ((self.delta <= self.c) & (self.c <= Self::MAX_C))
            & ((self.u < n) & (self.u % 2 == 1))
            & (self.v < n)
    }

    // The given setup with its defaults in, if all its numbers are then in range.
    #[tactic(auto, using(crate::proofs::Ranges::full_ranges))]
    pub fn checked(given: Setup) -> Result<Setup, Refusal>
        ensures checked { result ≡ checked_of given }
        ensures in_range { IfOk result Ranges }
    {
        if given.sizes_ok() {
            let full = given.with_defaults();
            if full.rest_ok() {
                return Ok(full);
            }
        }
        Err(Refusal::BadSetup)
    }
}

// The address map: from an address to its cell, and from a cell to its bank and the row inside it.
#![tactic(auto)]

ghost use Rattle.std.specs.Prelude.{◌≡◌, ◌^◌, ◌-◌, ◌<◌};
ghost use Rattle.map.specs.Map.{words_of, banks_of, cell_of, bank_of, row_of, rows_of, join_of, Sizes};

// The four numbers of a setup that the map takes.
#[derive(Clone, Copy)]
pub struct Map {
    // Address bits: N = 2^a words.
    pub a: u8,
    // B = 2^s banks.
    pub s: u8,
    // The permutation.
    pub u: u32,
    pub v: u32,
}

// What the line card sends.
#[derive(Clone, Copy)]
pub struct Address(pub u32);

// What the permutation makes of it: the place in the lent memory.
#[derive(Clone, Copy)]
pub struct Cell(pub u32);

// 2^n.
fn two_to(n: u8) -> u32
    requires { n < 32 }
    ensures { result ≡ 2 ^ n }
{
    1u32 << n
}

impl Map {
    // N, the number of words.
    pub fn words(self) -> u32
        requires { Sizes self }
        ensures { result ≡ words_of self }
    {
        two_to(self.a)
    }

    // B, the number of banks.
    pub fn banks(self) -> u32
        requires { Sizes self }
        ensures { result ≡ banks_of self }
    {
        two_to(self.s)
    }

    // The bits that name a row inside its bank.
    fn row_bits(self) -> u8
        requires { Sizes self }
        ensures { result ≡ self.a - self.s }
    {
        self.a - self.s
    }
}

impl Address {
    // The only way from an address to a cell.
    pub fn cell(self, map: Map) -> Cell
        requires { Sizes map }
        ensures { result ≡ cell_of map self }
    {
        let low = (map.words() - 1) as u64;
        let sum = (map.u as u64) * (self.0 as u64) + (map.v as u64);
        Cell((sum & low) as u32)
    }
}

impl Cell {
    // The top s of the cell's a bits name the bank.
    pub fn bank(self, map: Map) -> u32
        requires { Sizes map }
        ensures { result ≡ bank_of map self }
    {
        (self.0 >> map.row_bits()) & (map.banks() - 1)
    }

    // The other a - s bits name the row inside it.
    pub fn row(self, map: Map) -> u32
        requires { Sizes map }
        ensures { result ≡ row_of map self }
    {
        let rows = two_to(map.row_bits());
        self.0 & (rows - 1)
    }

    // The split turned round: the cell of a row of a bank.
    pub fn in_bank(bank: u32, row: u32, map: Map) -> Cell
        requires sizes { Sizes map }
        requires bank_bound { (bank < banks_of map) × (row < rows_of map) }
        ensures { result ≡ join_of map bank row }
    {
        Cell((bank << map.row_bits()) | row)
    }
}

// The reservation table: c rows in lent room, by columns.
#![tactic(auto)]

ghost use Rattle.std.specs.Prelude.{◌≡◌, true, ◌*◌, ◌≤◌, ◌<◌, length};
ghost use Rattle.model.specs.Lent.{row_numbers, kinds, addresses, links, row_at, put_row};
ghost use Rattle.model.specs.Range.{row_ok, rows_ok};
ghost use Rattle.table.specs.Table.{column, InRange};

use map::Address;
use model::Row;

// The table as it is read: the lent room, and how many rows it has.
#[derive(Clone, Copy)]
pub struct Table<'a> {
    pub rows: &'a [u32],
    pub c: usize,
    ghost long: { length rows.now ≡ row_numbers * c },
}

impl<'a> Table<'a> {
    pub fn new(rows: &'a [u32], c: usize) -> Self
        requires { length rows.now ≡ row_numbers * c }
        ensures { (result.rows.now ≡ rows.now) × (result.c ≡ c) }
    {
        Table { rows, c }
    }

    // The row at place i.
    pub fn row(self, i: usize) -> Row
        requires { i < self.c }
        ensures { result ≡ row_at self.entry.c self.entry.rows.now i }
    {
        Row {
            kind: self.rows[Row::KINDS * self.c + i],
            address: Address(self.rows[Row::ADDRESSES * self.c + i]),
            word: self.rows[Row::WORDS * self.c + i],
            link: self.rows[Row::LINKS * self.c + i],
        }
    }

    pub fn kinds(self) -> &'a [u32]
        ensures { result.now ≡ column (kinds self.entry.c) self.entry.c self.entry.rows.now }
    {
        let at = Row::KINDS * self.c;
        &self.rows[at..at + self.c]
    }

    pub fn addresses(self) -> &'a [u32]
        ensures { result.now ≡ column (addresses self.entry.c) self.entry.c self.entry.rows.now }
    {
        let at = Row::ADDRESSES * self.c;
        &self.rows[at..at + self.c]
    }

    pub fn links(self) -> &'a [u32]
        ensures { result.now ≡ column (links self.entry.c) self.entry.c self.entry.rows.now }
    {
        let at = Row::LINKS * self.c;
        &self.rows[at..at + self.c]
    }

    // The numbers of every row are in range whatever its kind is. In a run that is so, so this is quick;
    // of rows that no run leaves, it may say no though they are in range.
    fn plainly_ok(self, n: u32) -> bool
        requires { self.c ≤ 4096 }
        ensures { result ≡ true → InRange n self.entry.c self.entry.rows.now }
    {
        flat::all_below(self.kinds(), Row::WAITING + 1)
            && flat::all_below(self.addresses(), n)
            && flat::all_below(self.links(), self.c as u32)
    }

    // Every row is in range, row by row.
    fn each_ok(self, n: u32) -> bool
        requires { self.c ≤ 4096 }
        ensures { result ≡ rows_ok n self.entry.c self.entry.rows.now self.entry.c }
    {
        for i in 0..self.c {
            if !row_ok(self.row(i), n, self.c as u32) {
                return false;
            }
        }
        true
    }

    // Every row is in range: by columns, and where that does not show it row by row.
    pub fn rows_ok(self, n: u32) -> bool
        requires { self.c ≤ 4096 }
        ensures { result ≡ rows_ok n self.entry.c self.entry.rows.now self.entry.c }
    {
        self.plainly_ok(n) || self.each_ok(n)
    }
}

// Puts a row at place i.
pub fn put_row(rows: &mut [u32], c: usize, i: usize, r: Row)
    requires { (length rows.old ≡ row_numbers * c) × (i < c) }
    ensures { rows.new ≡ put_row c rows.old i r }
{
    rows[Row::KINDS * c + i] = r.kind;
    rows[Row::ADDRESSES * c + i] = r.address.0;
    rows[Row::LINKS * c + i] = r.link;
    rows[Row::WORDS * c + i] = r.word;
}

// Of n words and c rows: the row's numbers are in the range that their meaning allows.
fn row_ok(r: Row, n: u32, c: u32) -> bool
    ensures { result ≡ row_ok n c r }
{
    (r.kind <= Row::WAITING)
        & ((r.kind == Row::EMPTY) | (r.address.0 < n))
        & ((r.kind != Row::WAITING) | (r.link < c))
}

// Service: each bank whose turn it is takes the oldest entry of its buffer.
#![tactic(auto)]

ghost use Rattle.std.specs.Prelude.{◌≡◌, ◌≤◌, ◌<◌, length};
ghost use Rattle.setup.specs.Setup.{banks_of};
ghost use Rattle.model.specs.Lent.{lent, write_entry};
ghost use Rattle.model.specs.Cycle.{carried, served_bank, served_if, served};
ghost use Rattle.model.specs.Range.{lengths_of, Good};

use model::Entry;
use setup::Setup;

// Carries an entry out: a write stores its word at its cell; a read's word goes to its row and to every row waiting on that row.
fn carry(s: Setup, e: Entry, memory: &mut [u32], rows: &mut [u32])
    requires { (length rows.old ≡ (lengths_of s).rows) × (s.c ≤ 4096) × (e.cell.0 < length memory.old)
        × ((e.kind ≡ write_entry → ⊥) → e.row < s.c) }
    ensures { (memory.new, rows.new) ≡ carried s e (memory.old, rows.old) }
{
    let at = e.cell.0 as usize;
    if e.kind == Entry::WRITE {
        memory[at] = e.word;
        return;
    }
    let word = memory[at];
    filling::fill(rows, s.c as usize, e.row, word);
}

// Serves bank b: its oldest entry, if any.
fn serve_bank(
    s: Setup,
    b: usize,
    memory: &mut [u32],
    rows: &mut [u32],
    entries: &[u32],
    heads: &mut [u32],
)
    requires { Good s (lent memory.old rows.old entries.now heads.old) × (b < banks_of s) }
    ensures { lent memory.new rows.new entries.now heads.new
        ≡ served_bank s b (lent memory.old rows.old entries.now heads.old) }
{
    if heads::count_at(heads, b) == 0 {
        return;
    }
    let e = buffers::oldest_entry(s, b, entries, heads);
    heads::pop(s, b, heads);
    carry(s, e, memory, rows);
}

// Serves bank b if it is its turn.
fn serve_if(
    s: Setup,
    turn: u32,
    b: usize,
    memory: &mut [u32],
    rows: &mut [u32],
    entries: &[u32],
    heads: &mut [u32],
)
    requires { Good s (lent memory.old rows.old entries.now heads.old) × (b < banks_of s) }
    ensures { lent memory.new rows.new entries.now heads.new
        ≡ served_if s turn b (lent memory.old rows.old entries.now heads.old) }
{
    if b % (s.m as usize) == turn as usize {
        serve_bank(s, b, memory, rows, entries, heads);
    }
}

// Serves each bank whose turn it is, in rising order. At most banks nothing waits as a rule: those are passed over.
pub fn serve(
    s: Setup,
    turn: u32,
    memory: &mut [u32],
    rows: &mut [u32],
    entries: &[u32],
    heads: &mut [u32],
)
    requires { Good s (lent memory.old rows.old entries.now heads.old) }
    ensures { lent memory.new rows.new entries.now heads.new
        ≡ served s turn (lent memory.old rows.old entries.now heads.old) }
{
    let banks = s.banks() as usize;
    let mut b = heads::next_waiting(heads, 0, banks);
    while b < banks {
        serve_if(s, turn, b, memory, rows, entries, heads);
        b = heads::next_waiting(heads, b + 1, banks);
    }
}

// What the calls look at before they change anything, and what a refusal, a question and a fresh start return.
#![tactic(auto)]

ghost use Rattle.std.specs.Prelude.{◌≡◌, length, IfOk};
ghost use Rattle.setup.specs.Setup.{Ranges};
ghost use Rattle.model.specs.Lent.{buffers_in, lent};
ghost use Rattle.model.specs.Range.{lengths_of, lengths_ok, numbers_ok, Room, Exact, Ready};
ghost use Rattle.model.specs.Calls.{exact_of, standing_of, address_ok, offered_of, refused_by, fresh_state, tell_of};

use answers::Refusal;
use model::{Cycled, Entry, Head, Lengths, Row, State, Waiting};
use port::{Delivery, Operation, Reply};
use setup::Setup;
use table::Table;

// How many numbers each lent slice must have.
pub fn lengths(s: Setup) -> Lengths
    requires { Ranges s }
    ensures { result ≡ lengths_of s }
{
    let banks = s.banks();
    Lengths {
        memory: s.words(),
        rows: (Row::NUMBERS as u32) * (s.c as u32),
        entries: (Entry::NUMBERS as u32) * (banks * (s.k as u32)),
        heads: (Head::NUMBERS as u32) * banks,
    }
}

// Whether every lent length is exact.
pub fn lengths_ok(s: Setup, memory: &[u32], rows: &[u32], entries: &[u32], heads: &[u32]) -> bool
    requires { Ranges s }
    ensures { result
        ≡ lengths_ok s (lent memory.now rows.now entries.now heads.now) }
{
    let due = lengths(s);
    (memory.len() == due.memory as usize)
        & (rows.len() == due.rows as usize)
        & (entries.len() == due.entries as usize)
        & (heads.len() == due.heads as usize)
}

// 1 and 2: the setup in range, and every length exact.
#[tactic(auto, using(model::proofs::Range::exact_shown), unfolding(model::specs::Calls::exact_in))]
pub fn exact(
    setup: Setup,
    memory: &[u32],
    rows: &[u32],
    entries: &[u32],
    heads: &[u32],
) -> Result<Setup, Refusal>
    ensures exact { result
        ≡ exact_of setup (lent memory.now rows.now entries.now heads.now) }
    ensures shown { IfOk result (λ s. Exact s (lent memory.now rows.now entries.now heads.now)) }
{
    let s = Setup::checked(setup)?;
    if lengths_ok(s, memory, rows, entries, heads) {
        return Ok(s);
    }
    Err(Refusal::BadLength)
}

// Whether every number in state, row or entry is in the range its meaning allows.
pub fn numbers_ok(s: Setup, t: State, rows: &[u32], entries: &[u32], heads: &[u32]) -> bool
    requires { Ranges s × (length rows.now ≡ (lengths_of s).rows) × Room s (buffers_in entries.now heads.now) }
    ensures { result ≡ numbers_ok s t rows.now (buffers_in entries.now heads.now) }
{
    let turn = (t.turn < s.m as u32) & (t.position < s.c as u32);
    let n = s.words();
    let rows_ok = Table::new(rows, s.c as usize).rows_ok(n);
    turn & rows_ok & entries::buffers_ok(s, n, entries, heads)
}

// 1, 2 and 3: besides, every number in the range its meaning allows.
#[tactic(auto, unfolding(model::specs::Calls::standing_in))]
pub fn standing(
    setup: Setup,
    t: State,
    memory: &[u32],
    rows: &[u32],
    entries: &[u32],
    heads: &[u32],
) -> Result<Setup, Refusal>
    ensures standing { result
        ≡ standing_of setup t (lent memory.now rows.now entries.now heads.now) }
    ensures shown { IfOk result (λ s. Ready s t (lent memory.now rows.now entries.now heads.now)) }
{
    let s = exact(setup, memory, rows, entries, heads)?;
    if numbers_ok(s, t, rows, entries, heads) {
        return Ok(s);
    }
    Err(Refusal::BadState)
}

// Whether the operation's address, if it has one, is below N.
fn address_ok(s: Setup, op: Operation) -> bool
    requires { Ranges s }
    ensures { result ≡ address_ok s op }
{
    match op {
        Operation::Idle => true,
        Operation::Read(a) => a.0 < s.words(),
        Operation::Write(a, _) => a.0 < s.words(),
    }
}

// 7 and 4: an offered operation that is refused.
#[tactic(auto, unfolding(model::specs::Calls::offered_of))]
pub fn offered(s: Setup, t: State, op: Operation) -> Result<(), Refusal>
    requires { Ranges s }
    ensures { result ≡ offered_of s t op }
{
    if t.stopped {
        return Err(Refusal::Stopped);
    }
    if address_ok(s, op) {
        return Ok(());
    }
    Err(Refusal::BadAddress)
}

// A refused call: delivery none, stamp 0, and the state as it was.
pub fn refuse(answer: u32, t: State) -> Cycled
    ensures { result ≡ refused_by answer t }
{
    Cycled {
        state: t,
        reply: Reply {
            answer,
            delivery: Delivery::None,
            stamp: 0,
        },
    }
}

// The state of the first cycle after a fresh start.
pub fn first_state() -> State
    ensures { result ≡ fresh_state }
{
    State::default()
}

// What a question of one bank tells once 1, 2 and 3 are past.
#[tactic(auto, unfolding(model::specs::Calls::tell_of))]
pub fn tell(s: Setup, bank: u32, heads: &[u32]) -> Waiting
    requires { Ranges s × (length heads.now ≡ (lengths_of s).heads) }
    ensures { result ≡ tell_of s bank heads.now }
{
    if bank < s.banks() {
        return Waiting {
            answer: answers::DONE,
            count: heads::count_at(heads, bank as usize),
        };
    }
    Waiting {
        answer: Refusal::BadAddress.number(),
        count: 0,
    }
}

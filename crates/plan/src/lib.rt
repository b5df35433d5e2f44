// What a cycle does, planned by values alone: what a row delivers, what is placed, the row that is filled, what the call returns.
#![tactic(auto)]

ghost use Rattle.std.specs.Prelude.{◌≡◌, ◌<◌};
ghost use Rattle.answers.specs.Answers.{done, dropped, stopping};
ghost use Rattle.choice.specs.Choice.{pick};
ghost use Rattle.setup.specs.Setup.{Ranges};
ghost use Rattle.model.specs.Lent.{empty_row};
ghost use Rattle.model.specs.Cycle.{leaves, write_of, read_of, given_up_write, plan_with, read_plan, merged_row, write_plan, next_state, stopped_state, cycled};

use map::Address;
use model::{Cycled, Entry, Plan, Row, State};
use port::{Delivery, Reply};
use setup::Setup;

// ---- Delivery

// What a row delivers.
pub fn leave(r: Row) -> Delivery
    ensures { result ≡ leaves r }
{
    if r.kind == Row::READ {
        return Delivery::Word(r.word);
    }
    if r.kind == Row::WAITING {
        return Delivery::Unready;
    }
    Delivery::None
}

// ---- Entries

// The entry of a write: it carries its own cell and word.
fn write_entry(s: Setup, a: Address, word: u32) -> Entry
    requires { Ranges s }
    ensures { result ≡ write_of s a word }
{
    let cell = a.cell(s.map());
    Entry {
        kind: Entry::WRITE,
        row: 0,
        cell,
        word,
    }
}

// The entry of a read, for the row at the position.
fn read_entry(s: Setup, position: u32, a: Address) -> Entry
    requires { Ranges s }
    ensures { result ≡ read_of s position a }
{
    let cell = a.cell(s.map());
    Entry {
        kind: Entry::READ,
        row: position,
        cell,
        word: 0,
    }
}

// ---- Retirement

// What a retiring write places: its entry, where no newer live row is a write to its address.
pub fn give_up_write(s: Setup, r: Row, newer: Option<usize>) -> Option<Entry>
    requires { Ranges s }
    ensures { result ≡ given_up_write s r newer }
{
    match newer {
        Some(_) => None,
        None => Some(write_entry(s, r.address, r.word)),
    }
}

// ---- Arrival

fn empty() -> Row
    ensures { result ≡ empty_row }
{
    Row {
        kind: Row::EMPTY,
        address: Address(0),
        word: 0,
        link: 0,
    }
}

// Idle fills an empty row.
pub fn plan_idle() -> Plan
    ensures { result ≡ plan_with empty_row None }
{
    Plan {
        row: empty(),
        placing: None,
    }
}

// A read places an entry, and its row waits on itself.
pub fn plan_read(s: Setup, position: u32, a: Address) -> Plan
    requires { Ranges s }
    ensures { result ≡ read_plan s position a }
{
    Plan {
        row: Row {
            kind: Row::WAITING,
            address: a,
            word: 0,
            link: position,
        },
        placing: Some(read_entry(s, position, a)),
    }
}

// The row of a read that finds a row of its address: with its word at once, or waiting on the row whose entry is in the buffer.
fn merge_row(a: Address, r: Row) -> Row
    ensures { result ≡ merged_row a r }
{
    if r.kind == Row::WAITING {
        return Row {
            kind: Row::WAITING,
            address: a,
            word: 0,
            link: r.link,
        };
    }
    Row {
        kind: Row::READ,
        address: a,
        word: r.word,
        link: 0,
    }
}

// A read that finds a row of its address places nothing.
pub fn plan_merged(a: Address, r: Row) -> Plan
    ensures { result ≡ plan_with (merged_row a r) None }
{
    Plan {
        row: merge_row(a, r),
        placing: None,
    }
}

// What a write places: merging nothing, plain an entry.
fn place_write(s: Setup, a: Address, word: u32) -> Option<Entry>
    requires { Ranges s }
    ensures { result ≡ (write_plan s a word).placing }
{
    if s.mode == Setup::MERGING {
        return None;
    }
    Some(write_entry(s, a, word))
}

// A write fills its row with its word.
pub fn plan_write(s: Setup, a: Address, word: u32) -> Plan
    requires { Ranges s }
    ensures { result ≡ write_plan s a word }
{
    Plan {
        row: Row {
            kind: Row::WRITE,
            address: a,
            word,
            link: 0,
        },
        placing: place_write(s, a, word),
    }
}

// The row of an operation whose entry found a place, or of one that is dropped.
pub fn seat(taken: bool, r: Row) -> Row
    ensures { result ≡ pick taken r empty_row }
{
    let none = empty();
    if taken { r } else { none }
}

// ---- What the call returns

// The state of the next cycle: the stamp wraps on purpose, turn and position are kept apart from it.
fn next_state(s: Setup, t: State) -> State
    requires { Ranges s × (t.turn < s.m) × (t.position < s.c) }
    ensures { result ≡ next_state s t }
{
    State {
        stamp: t.stamp.wrapping_add(1),
        turn: rings::next(s.m as usize, t.turn as usize) as u32,
        position: rings::next(s.c as usize, t.position as usize) as u32,
        stopped: t.stopped,
    }
}

// Stamp, turn and position stay, and the state is marked stopped.
fn stopped_state(t: State) -> State
    ensures { result ≡ stopped_state t }
{
    State { stopped: true, ..t }
}

// The answer of a cycle that passes.
fn answer_of(taken: bool) -> u32
    ensures { result ≡ pick taken done dropped }
{
    if taken {
        answers::DONE
    } else {
        answers::DROPPED
    }
}

// What a cycle returns: the reply's stamp is this cycle's.
fn cycled(t: State, answer: u32, delivery: Delivery, next: State) -> Cycled
    ensures { result ≡ cycled t answer delivery next }
{
    Cycled {
        state: next,
        reply: Reply {
            answer,
            delivery,
            stamp: t.stamp,
        },
    }
}

// Taken or dropped, the cycle passes.
pub fn pass(s: Setup, t: State, delivery: Delivery, taken: bool) -> Cycled
    requires { Ranges s × (t.turn < s.m) × (t.position < s.c) }
    ensures { result ≡ cycled t (pick taken done dropped) delivery (next_state s t) }
{
    cycled(t, answer_of(taken), delivery, next_state(s, t))
}

// A retiring write that finds its buffer full stops the machine.
pub fn stop(t: State, delivery: Delivery) -> Cycled
    ensures { result ≡ cycled t stopping delivery (stopped_state t) }
{
    cycled(t, answers::STOPPING, delivery, stopped_state(t))
}

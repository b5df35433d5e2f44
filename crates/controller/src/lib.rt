// The controller: a fresh start, a cycle and a question, over memory that the caller lends.
#![tactic(auto)]

ghost use Rattle.std.specs.Prelude.{◌≡◌};
ghost use Rattle.model.specs.Lent.{lent};
ghost use Rattle.model.specs.Calls.{fresh_of, cycle_of, waiting_of};

use answers::Refusal;
use model::{Cycled, Started, State, Waiting};
use port::Operation;
use setup::Setup;

// A fresh start: rows and buffers are emptied, and the memory words stay.
#[tactic(auto, unfolding(model::specs::Calls::fresh_in))]
pub fn fresh_start(
    setup: Setup,
    t: State,
    memory: &[u32],
    rows: &mut [u32],
    entries: &[u32],
    heads: &mut [u32],
) -> Started
    ensures { (result, lent memory.now rows.new entries.now heads.new)
        ≡ fresh_of setup t (lent memory.now rows.old entries.now heads.old) }
{
    match refusals::exact(setup, memory, rows, entries, heads) {
        Err(r) => Started {
            answer: r.number(),
            state: t,
        },
        Ok(_) => {
            rings::clear(rows);
            rings::clear(heads);
            Started {
                answer: answers::DONE,
                state: refusals::first_state(),
            }
        }
    }
}

// One cycle.
#[tactic(auto, unfolding(model::specs::Calls::cycle_in, model::specs::Calls::step_in))]
pub fn cycle(
    setup: Setup,
    t: State,
    op: Operation,
    memory: &mut [u32],
    rows: &mut [u32],
    entries: &mut [u32],
    heads: &mut [u32],
) -> Cycled
    ensures { (result, lent memory.new rows.new entries.new heads.new)
        ≡ cycle_of setup t op (lent memory.old rows.old entries.old heads.old) }
{
    match refusals::standing(setup, t, memory, rows, entries, heads) {
        Err(r) => refusals::refuse(r.number(), t),
        Ok(s) => match refusals::offered(s, t, op) {
            Err(r) => refusals::refuse(r.number(), t),
            Ok(()) => passage::pass(s, t, op, memory, rows, entries, heads),
        },
    }
}

// How many entries wait at one bank. Not by `standing`: as long as `cycle` alone calls that, it becomes a part of `cycle`, and no
// setup is copied there.
#[tactic(auto, unfolding(model::specs::Calls::standing_in, model::specs::Calls::waiting_in))]
pub fn waiting(
    setup: Setup,
    t: State,
    bank: u32,
    memory: &[u32],
    rows: &[u32],
    entries: &[u32],
    heads: &[u32],
) -> Waiting
    ensures { result
        ≡ waiting_of setup t bank (lent memory.now rows.now entries.now heads.now) }
{
    match refusals::exact(setup, memory, rows, entries, heads) {
        Err(r) => Waiting {
            answer: r.number(),
            count: 0,
        },
        Ok(s) => {
            if refusals::numbers_ok(s, t, rows, entries, heads) {
                return refusals::tell(s, bank, heads);
            }
            Waiting {
                answer: Refusal::BadState.number(),
                count: 0,
            }
        }
    }
}

// What follows service in a cycle, delivery, retirement and arrival: what is looked at and planned lands. Entries are placed, and
// the row is put.
#![tactic(auto)]

ghost use Rattle.std.specs.Prelude.{◌≡◌, ◌<◌, length};
ghost use Rattle.setup.specs.Setup.{Ranges};
ghost use Rattle.model.specs.Lent.{buffers_in};
ghost use Rattle.model.specs.Range.{lengths_of, GoodBuffers};
ghost use Rattle.model.specs.Cycle.{placed_if, planned, arrived, going, after_service};
ghost use Rattle.arrival.specs.Banks.{EachBuffer};

use model::{Cycled, Entry, Plan, State};
use port::{Delivery, Operation};
use setup::Setup;

// Places what is to be placed. False where its buffer is full.
fn place_if(s: Setup, p: Option<Entry>, entries: &mut [u32], heads: &mut [u32]) -> bool
    requires { EachBuffer s (buffers_in entries.old heads.old) }
    ensures { (result, buffers_in entries.new heads.new)
        ≡ placed_if s p (buffers_in entries.old heads.old) }
{
    match p {
        Some(e) => buffers::place(s, e, entries, heads),
        None => true,
    }
}

// The operation fills its row as planned. True where it is taken.
fn arrive(
    s: Setup,
    position: u32,
    plan: Plan,
    rows: &mut [u32],
    entries: &mut [u32],
    heads: &mut [u32],
) -> bool
    requires { (length rows.old ≡ (lengths_of s).rows) × EachBuffer s (buffers_in entries.old heads.old)
        × (position < s.c) }
    ensures { (result, (rows.new, buffers_in entries.new heads.new))
        ≡ arrived s position plan rows.old (buffers_in entries.old heads.old) }
{
    let placing = plan.placing;
    let taken = place_if(s, placing, entries, heads);
    table::put_row(
        rows,
        s.c as usize,
        position as usize,
        plan::seat(taken, plan.row),
    );
    taken
}

// The operation arrives. A write asks for no look: it goes by itself, which spares it the joining of the ways.
fn take(
    s: Setup,
    position: u32,
    op: Operation,
    rows: &mut [u32],
    entries: &mut [u32],
    heads: &mut [u32],
) -> bool
    requires { Ranges s × (length rows.old ≡ (lengths_of s).rows)
        × EachBuffer s (buffers_in entries.old heads.old) × (position < s.c) }
    ensures { (result, (rows.new, buffers_in entries.new heads.new))
        ≡ arrived s position (planned s position op rows.old) rows.old
        (buffers_in entries.old heads.old) }
{
    if let Operation::Write(a, word) = op {
        return arrive(
            s,
            position,
            plan::plan_write(s, a, word),
            rows,
            entries,
            heads,
        );
    }
    let plan = looking::plan(s, position, op, rows);
    arrive(s, position, plan, rows, entries, heads)
}

// The retiring write first: where its buffer is full the machine stops, and arrival is not looked at.
fn land(
    s: Setup,
    t: State,
    op: Operation,
    delivery: Delivery,
    retiring: Option<Entry>,
    rows: &mut [u32],
    entries: &mut [u32],
    heads: &mut [u32],
) -> Cycled
    requires { Ranges s × (length rows.old ≡ (lengths_of s).rows)
        × EachBuffer s (buffers_in entries.old heads.old) × (t.turn < s.m) × (t.position < s.c) }
    ensures { (result, (rows.new, buffers_in entries.new heads.new))
        ≡ going s t (planned s t.position op rows.old) delivery rows.old
        (placed_if s retiring (buffers_in entries.old heads.old)) }
{
    if place_if(s, retiring, entries, heads) {
        let taken = take(s, t.position, op, rows, entries, heads);
        return plan::pass(s, t, delivery, taken);
    }
    plan::stop(t, delivery)
}

// Delivery, retirement and arrival.
pub fn go_on(
    s: Setup,
    t: State,
    op: Operation,
    rows: &mut [u32],
    entries: &mut [u32],
    heads: &mut [u32],
) -> Cycled
    requires { Ranges s × (length rows.old ≡ (lengths_of s).rows)
        × GoodBuffers s (buffers_in entries.old heads.old) × (t.turn < s.m) × (t.position < s.c) }
    ensures { (result, (rows.new, buffers_in entries.new heads.new))
        ≡ after_service s t op rows.old (buffers_in entries.old heads.old) }
{
    let delivery = looking::deliver(s, t.position as usize, rows);
    let retiring = looking::give_up(s, t.position as usize, rows);
    land(s, t, op, delivery, retiring, rows, entries, heads)
}

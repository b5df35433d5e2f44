// The calls that C makes (include/ridkostan.h, by crates/interface_c): numbers in, the controller or the records asked, numbers out.
#![tactic(auto)]

ghost use Rattle.std.specs.Prelude.{◌≡◌};
ghost use Rattle.answers.specs.Answers.{number};
ghost use Rattle.setup.specs.Setup.{checked_of};
ghost use Rattle.model.specs.Lent.{lent};
ghost use Rattle.records.specs.Records.{operation_of};
ghost use Rattle.setuprecord.specs.SetupRecord.{setup_of, setup_written};
ghost use Rattle.forms.specs.Forms.{checked_out, refused_by, setup_read, operation_read, written_out};
ghost use Rattle.interface.specs.Interface.{lengths_in, start_out, bad_mark, cycle_out, waiting_out, operation_written_out};

use answers::Refusal;
use forms::{Checked, Cycled, Lent, Operation, Recorded, Started, State, Told, Unasked};
use setup::Setup;

// Whether every number of the setup is in range, and the setup with its defaults in.
pub fn ridkostan_check(setup: Setup) -> Checked
    ensures { result ≡ checked_out (checked_of setup) }
{
    Setup::checked(setup).into()
}

// How many numbers each lent room has under this setup.
pub fn ridkostan_lengths(setup: Setup) -> Lent
    ensures { result ≡ lengths_in (checked_of setup) }
{
    match Setup::checked(setup) {
        Ok(s) => refusals::lengths(s).into(),
        Err(_) => forms::no_lengths(),
    }
}

// A fresh start.
pub fn ridkostan_fresh_start(
    setup: Setup,
    state: State,
    memory: &[u32],
    rows: &mut [u32],
    entries: &[u32],
    heads: &mut [u32],
) -> Started
    ensures { (result, lent memory.now rows.new entries.now heads.new)
        ≡ start_out setup state (lent memory.now rows.old entries.now heads.old) }
{
    let started = controller::fresh_start(
        setup,
        forms::state_in(state),
        memory,
        rows,
        entries,
        heads,
    );
    forms::started_out(state, started)
}

// The answer to a mark out of range: 3, unless 1 or 2 comes first.
#[tactic(auto, unfolding(crate::specs::Interface::bad_mark))]
fn bad_mark(setup: Setup, memory: &[u32], rows: &[u32], entries: &[u32], heads: &[u32]) -> Refusal
    ensures { result
        ≡ bad_mark (checked_of setup) (lent memory.now rows.now entries.now heads.now) }
{
    match Setup::checked(setup) {
        Err(r) => r,
        Ok(s) => {
            if refusals::lengths_ok(s, memory, rows, entries, heads) {
                return Refusal::BadState;
            }
            Refusal::BadLength
        }
    }
}

// Refuses a mark out of range.
fn refuse_mark(
    setup: Setup,
    t: State,
    memory: &[u32],
    rows: &[u32],
    entries: &[u32],
    heads: &[u32],
) -> Cycled
    ensures { result
        ≡ refused_by (number (bad_mark (checked_of setup) (lent memory.now rows.now entries.now heads.now))) t }
{
    forms::refuse(bad_mark(setup, memory, rows, entries, heads).number(), t)
}

// One cycle.
#[tactic(auto, unfolding(crate::specs::Interface::cycle_in))]
pub fn ridkostan_cycle(
    setup: Setup,
    state: State,
    operation: Operation,
    memory: &mut [u32],
    rows: &mut [u32],
    entries: &mut [u32],
    heads: &mut [u32],
) -> Cycled
    ensures { (result, lent memory.new rows.new entries.new heads.new)
        ≡ cycle_out setup state operation (lent memory.old rows.old entries.old heads.old) }
{
    match forms::cycle_asked(state, operation) {
        Err(Unasked::NoOperation) => forms::refuse(Refusal::BadRecord.number(), state),
        Err(Unasked::BadMark) => refuse_mark(setup, state, memory, rows, entries, heads),
        Ok((t, op)) => controller::cycle(setup, t, op, memory, rows, entries, heads).into(),
    }
}

// How many entries wait at one bank.
#[tactic(auto, unfolding(crate::specs::Interface::waiting_out))]
pub fn ridkostan_waiting(
    setup: Setup,
    state: State,
    bank: u32,
    memory: &[u32],
    rows: &[u32],
    entries: &[u32],
    heads: &[u32],
) -> Told
    ensures { result
        ≡ waiting_out setup state bank (lent memory.now rows.now entries.now heads.now) }
{
    if forms::mark_ok(state) {
        return controller::waiting(
            setup,
            forms::state_in(state),
            bank,
            memory,
            rows,
            entries,
            heads,
        )
        .into();
    }
    Told {
        answer: bad_mark(setup, memory, rows, entries, heads).number(),
        count: 0,
    }
}

// The setup in a record, a default given as 0 still 0.
pub fn ridkostan_read_setup(bytes: &[u8]) -> Checked
    ensures { result ≡ setup_read (setup_of bytes.now) }
{
    setuprecord::read_setup(bytes).into()
}

// Writes a setup over the whole room.
pub fn ridkostan_write_setup(setup: Setup, room: &mut [u8]) -> u32
    ensures { (result, room.new) ≡ written_out (setup_written setup room.old) }
{
    answers::answer_of(setuprecord::write_setup(setup, room))
}

// The operation in a record.
pub fn ridkostan_read_operation(bytes: &[u8]) -> Recorded
    ensures { result ≡ operation_read (operation_of bytes.now) }
{
    records::read_operation(bytes).into()
}

// Writes an operation over the whole room.
pub fn ridkostan_write_operation(operation: Operation, room: &mut [u8]) -> u32
    ensures { (result, room.new) ≡ operation_written_out operation room.old }
{
    match port::Operation::try_from(operation) {
        Ok(op) => answers::answer_of(records::write_operation(op, room)),
        Err(_) => Refusal::BadRecord.number(),
    }
}

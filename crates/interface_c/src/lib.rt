// The library that C links (include/ridkostan.h): each export is the call of the same name in crates/interface, under the same clauses.
#![tactic(auto)]

ghost use Rattle.std.specs.Prelude.{◌≡◌};
ghost use Rattle.setup.specs.Setup.{checked_of};
ghost use Rattle.model.specs.Lent.{lent};
ghost use Rattle.records.specs.Records.{operation_of};
ghost use Rattle.setuprecord.specs.SetupRecord.{setup_of, setup_written};
ghost use Rattle.forms.specs.Forms.{checked_out, setup_read, operation_read, written_out};
ghost use Rattle.interface.specs.Interface.{lengths_in, start_out, cycle_out, waiting_out, operation_written_out};

use forms::{Checked, Cycled, Lent, Operation, Recorded, Started, State, Told};
use setup::Setup;

// Whether every number of the setup is in range, and the setup with its defaults in.
#[unsafe(no_mangle)]
pub extern "C" fn ridkostan_check(setup: Setup) -> Checked
    ensures { result ≡ checked_out (checked_of setup) }
{
    interface::ridkostan_check(setup)
}

// How many numbers each lent room has under this setup.
#[unsafe(no_mangle)]
pub extern "C" fn ridkostan_lengths(setup: Setup) -> Lent
    ensures { result ≡ lengths_in (checked_of setup) }
{
    interface::ridkostan_lengths(setup)
}

// A fresh start.
#[unsafe(no_mangle)]
pub extern "C" fn ridkostan_fresh_start(
    setup: Setup,
    state: State,
    memory: &[u32],
    rows: &mut [u32],
    entries: &[u32],
    heads: &mut [u32],
) -> Started
    ensures { (result, lent memory.now rows.new entries.now heads.new)
        ≡ start_out setup state (lent memory.now rows.old entries.now heads.old) }
{
    interface::ridkostan_fresh_start(setup, state, memory, rows, entries, heads)
}

// One cycle.
#[unsafe(no_mangle)]
pub extern "C" fn ridkostan_cycle(
    setup: Setup,
    state: State,
    operation: Operation,
    memory: &mut [u32],
    rows: &mut [u32],
    entries: &mut [u32],
    heads: &mut [u32],
) -> Cycled
    ensures { (result, lent memory.new rows.new entries.new heads.new)
        ≡ cycle_out setup state operation (lent memory.old rows.old entries.old heads.old) }
{
    interface::ridkostan_cycle(setup, state, operation, memory, rows, entries, heads)
}

// How many entries wait at one bank.
#[unsafe(no_mangle)]
pub extern "C" fn ridkostan_waiting(
    setup: Setup,
    state: State,
    bank: u32,
    memory: &[u32],
    rows: &[u32],
    entries: &[u32],
    heads: &[u32],
) -> Told
    ensures { result
        ≡ waiting_out setup state bank (lent memory.now rows.now entries.now heads.now) }
{
    interface::ridkostan_waiting(setup, state, bank, memory, rows, entries, heads)
}

// The setup in a record, a default given as 0 still 0.
#[unsafe(no_mangle)]
pub extern "C" fn ridkostan_read_setup(bytes: &[u8]) -> Checked
    ensures { result ≡ setup_read (setup_of bytes.now) }
{
    interface::ridkostan_read_setup(bytes)
}

// Writes a setup over the whole room.
#[unsafe(no_mangle)]
pub extern "C" fn ridkostan_write_setup(setup: Setup, room: &mut [u8]) -> u32
    ensures { (result, room.new) ≡ written_out (setup_written setup room.old) }
{
    interface::ridkostan_write_setup(setup, room)
}

// The operation in a record.
#[unsafe(no_mangle)]
pub extern "C" fn ridkostan_read_operation(bytes: &[u8]) -> Recorded
    ensures { result ≡ operation_read (operation_of bytes.now) }
{
    interface::ridkostan_read_operation(bytes)
}

// Writes an operation over the whole room.
#[unsafe(no_mangle)]
pub extern "C" fn ridkostan_write_operation(operation: Operation, room: &mut [u8]) -> u32
    ensures { (result, room.new) ≡ operation_written_out operation room.old }
{
    interface::ridkostan_write_operation(operation, room)
}

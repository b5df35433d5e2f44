// What a cycle looks at in the rows as service left them, and what it plans by that. Nothing changes.
#![tactic(auto)]

ghost use Rattle.std.specs.Prelude.{◌≡◌, ◌<◌, length};
ghost use Rattle.setup.specs.Setup.{Ranges};
ghost use Rattle.model.specs.Range.{lengths_of};
ghost use Rattle.model.specs.Cycle.{delivered, newest_live, given_up, merged_plan, planned};

use map::Address;
use model::{Entry, Plan, Row};
use port::{Delivery, Operation};
use setup::Setup;
use table::Table;

// The rows as a table of C.
fn table_of(s: Setup, rows: &[u32]) -> Table<'_>
    requires { Ranges s × (length rows.now ≡ (lengths_of s).rows) }
    ensures { (result.rows.now ≡ rows.now) × (result.c ≡ s.c) }
{
    Table::new(rows, s.c as usize)
}

// Looks at the row filled a delay ago.
pub fn deliver(s: Setup, position: usize, rows: &[u32]) -> Delivery
    requires { Ranges s × (length rows.now ≡ (lengths_of s).rows) × (position < s.c) }
    ensures { result ≡ delivered s position rows.now }
{
    let at = rings::back(s.c as usize, position, s.delta as usize);
    plan::leave(table_of(s, rows).row(at))
}

// What the row filled C cycles ago places as it is given up: merging, a write that no newer live write replaces.
pub fn give_up(s: Setup, position: usize, rows: &[u32]) -> Option<Entry>
    requires { Ranges s × (length rows.now ≡ (lengths_of s).rows) × (position < s.c) }
    ensures { result ≡ given_up s position rows.now }
{
    if s.mode != Setup::MERGING {
        return None;
    }
    let table = table_of(s, rows);
    let r = table.row(position);
    if r.kind != Row::WRITE {
        return None;
    }
    plan::give_up_write(s, r, lookup::newest_write(table, position, r.address))
}

// A merging read: it merges with the newest live row of its address, or places an entry.
fn merge_read(s: Setup, position: u32, a: Address, rows: &[u32]) -> Plan
    requires { Ranges s × (length rows.now ≡ (lengths_of s).rows) × (position < s.c) }
    ensures { result ≡ merged_plan s position a (newest_live s position a rows.now) rows.now }
{
    let table = table_of(s, rows);
    let Some(i) = lookup::newest_live(table, position as usize, a) else {
        return plan::plan_read(s, position, a);
    };
    plan::plan_merged(a, table.row(i))
}

// What the operation is to do.
pub fn plan(s: Setup, position: u32, op: Operation, rows: &[u32]) -> Plan
    requires { Ranges s × (length rows.now ≡ (lengths_of s).rows) × (position < s.c) }
    ensures { result ≡ planned s position op rows.now }
{
    match op {
        Operation::Idle => plan::plan_idle(),
        Operation::Read(a) => {
            if s.mode == Setup::MERGING {
                return merge_read(s, position, a, rows);
            }
            plan::plan_read(s, position, a)
        }
        Operation::Write(a, word) => plan::plan_write(s, a, word),
    }
}

// A cycle that is not refused: service, then delivery, retirement and arrival.
#![tactic(auto)]

ghost use Rattle.std.specs.Prelude.{◌≡◌};
ghost use Rattle.model.specs.Lent.{lent};
ghost use Rattle.model.specs.Range.{Ready};
ghost use Rattle.model.specs.Cycle.{passed};

use model::{Cycled, State};
use port::Operation;
use setup::Setup;

// One cycle.
pub fn pass(
    s: Setup,
    t: State,
    op: Operation,
    memory: &mut [u32],
    rows: &mut [u32],
    entries: &mut [u32],
    heads: &mut [u32],
) -> Cycled
    requires { Ready s t (lent memory.old rows.old entries.old heads.old) }
    ensures { (result, lent memory.new rows.new entries.new heads.new)
        ≡ passed s t op (lent memory.old rows.old entries.old heads.old) }
{
    service::serve(s, t.turn, memory, rows, entries, heads);
    arrival::go_on(s, t, op, rows, entries, heads)
}

// A recorded sequence run through the controller: what `cyclerun` prints for it.
#![tactic(auto)]

ghost use Rattle.std.specs.Prelude.{◌≡◌, ◌+◌, ◌*◌, ◌^◌, ◌≤◌, ◌<◌, length};
ghost use Rattle.setup.specs.Setup.{Sizes};
ghost use Rattle.model.specs.Lent.{lent};
ghost use Rattle.records.specs.Records.{operation_of};
ghost use Rattle.decimal.specs.Decimal.{ten};
ghost use Rattle.listing.specs.Listing.{line_most};
ghost use Rattle.replay.specs.Replay.{room_for, opening_of, setup_line, records_in, with_record, listed, listed_from, put_at, put_line, zeros_for, Opened, begun};

use answers::Refusal;
use model::{Cycled, Entry, Head, Row, State};
use setup::Setup;

// A run between two records.
#[derive(Clone, Copy)]
pub struct Run {
    pub state: State,
    // The next record's number.
    pub number: u64,
    // A bad record ends the run.
    pub on: bool,
    // Where the text ends that stands in the lent room.
    pub end: usize,
}

// The program's room: a up to 12, C up to 1,024 and B·K up to 1,024.
const MOST_A: u8 = 12;

const MOST_C: u16 = 1024;

const MOST_PLACES: u32 = 1024;

const MOST_BANKS: usize = 64;

// What holds them.
pub const WORDS: usize = 4096;

pub const ROW_NUMBERS: usize = Row::NUMBERS * (MOST_C as usize);

pub const ENTRY_NUMBERS: usize = Entry::NUMBERS * (MOST_PLACES as usize);

pub const HEAD_NUMBERS: usize = Head::NUMBERS * MOST_BANKS;

// `setup`, a space, a digit and a newline.
pub const SETUP_LINE: usize = 8;

// Whether the program's room is large enough for a setup with its defaults in.
fn room_for(s: Setup) -> bool
    requires { Sizes s }
    ensures { result ≡ room_for s }
{
    (s.a <= MOST_A) & (s.c <= MOST_C) & (s.banks() * (s.k as u32) <= MOST_PLACES)
}

// The setup that the bytes of the setup file open, its defaults in, or why it is refused.
#[tactic(auto, unfolding(crate::specs::Replay::opening_for))]
pub fn open(file: &[u8]) -> Result<Setup, Refusal>
    ensures { result ≡ opening_of file.now }
{
    let given = setuprecord::read_setup(file)?;
    let s = Setup::checked(given)?;
    if room_for(s) {
        return Ok(s);
    }
    Err(Refusal::RoomTooSmall)
}

// The line of a refused setup.
#[tactic(auto, using(crate::proofs::Opens::line_digit))]
pub fn setup_line(answer: u32) -> [u8; SETUP_LINE]
    requires { answer < ten }
    ensures { result ≡ setup_line answer }
{
    [
        b's',
        b'e',
        b't',
        b'u',
        b'p',
        b' ',
        b'0' + (answer as u8),
        b'\n',
    ]
}

// A run before its first record: a fresh start over memory of zeros.
pub fn begin(s: Setup, memory: &[u32], rows: &mut [u32], entries: &[u32], heads: &mut [u32]) -> Run
    requires { Opened s × (lent memory.now rows.old entries.now heads.old ≡ zeros_for s) }
    ensures { (result, lent memory.now rows.new entries.now heads.new)
        ≡ begun s }
{
    let started = controller::fresh_start(s, refusals::first_state(), memory, rows, entries, heads);
    Run {
        state: started.state,
        number: 0,
        on: true,
        end: 0,
    }
}

// Puts the line of a record's cycle behind the text, and counts the record.
fn print(r: Run, cycled: Cycled, on: bool, out: &mut [u8]) -> Run
    requires { (r.end + line_most ≤ length out.old) × (r.number + 1 < 2 ^ 64) }
    ensures { ((result, out.new)
        ≡ put_line out.old r cycled.state cycled.reply.answer cycled.reply.delivery on)
        × (result.end ≤ r.end + line_most) }
{
    let reply = cycled.reply;
    let end = listing::put_line(out, r.end, r.number, reply.answer, reply.delivery);
    Run {
        state: cycled.state,
        number: r.number + 1,
        on,
        end,
    }
}

// Runs one record.
#[tactic(auto, unfolding(crate::specs::Replay::with_record))]
fn one(
    s: Setup,
    r: Run,
    bytes: &[u8],
    memory: &mut [u32],
    rows: &mut [u32],
    entries: &mut [u32],
    heads: &mut [u32],
    out: &mut [u8],
) -> Run
    requires { (r.end + line_most ≤ length out.old) × (r.number + 1 < 2 ^ 64) }
    ensures { ((result, (lent memory.new rows.new entries.new heads.new, out.new))
        ≡ put_at out.old r.end (with_record s (operation_of bytes.now) (listed_from r (lent memory.old rows.old entries.old heads.old))))
        × (result.end ≤ r.end + line_most) }
{
    let op = match records::read_operation(bytes) {
        Ok(op) => op,
        Err(refusal) => return print(r, refusals::refuse(refusal.number(), r.state), false, out),
    };
    let cycled = controller::cycle(s, r.state, op, memory, rows, entries, heads);
    print(r, cycled, true, out)
}

// Runs the records of a part of the input, and puts their lines at the start of the room.
pub fn part(
    s: Setup,
    run: Run,
    input: &[u8],
    memory: &mut [u32],
    rows: &mut [u32],
    entries: &mut [u32],
    heads: &mut [u32],
    out: &mut [u8],
) -> Run
    requires { (line_most * records_in (length input.now) ≤ length out.old)
        × (run.number + records_in (length input.now) < 2 ^ 64) }
    ensures { ((result, (lent memory.new rows.new entries.new heads.new, out.new))
        ≡ put_at out.old 0 (listed s input.now (listed_from run (lent memory.old rows.old entries.old heads.old))))
        × (result.end ≤ length out.new) }
{
    let count = (input.len() + (records::OPERATION_BYTES - 1)) / records::OPERATION_BYTES;
    let mut r = Run { end: 0, ..run };
    for i in 0..count {
        if !r.on {
            break;
        }
        let from = records::OPERATION_BYTES * i;
        let to = (from + records::OPERATION_BYTES).min(input.len());
        r = one(s, r, &input[from..to], memory, rows, entries, heads, out);
    }
    r
}

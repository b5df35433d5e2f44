// Reads a setup from the file `setup` and operations from standard input, and prints a line per record.
#![tactic(auto)]

ghost use Rattle.std.specs.Prelude.{◌≡◌, ◌+◌, ◌*◌, ◌^◌, ◌≤◌, ◌<◌, length, take};
ghost use Rattle.model.specs.Lent.{lent};
ghost use Rattle.listing.specs.Listing.{line_most};
ghost use Rattle.replay.specs.Replay.{records_in, listed, listed_from, put_at, zeros_for, whole_room, Opened};
ghost use Rattle.cyclerun.specs.Parts.{IsPrefixLen, Opens, PrintsOnly, part_most, part_bytes, Reached, Adds, Ended};

use model::{Entry, Head, Row};
use replay::Run;
use setup::Setup;
use std::fs;
use std::io::Read;
use std::rt::Files;

// The records that are read and printed at once.
const PART: usize = 1024;

const INPUT_BYTES: usize = records::OPERATION_BYTES * PART;

const OUTPUT_BYTES: usize = listing::LINE_MOST * PART;

// No input has as many parts.
const MOST_PARTS: u64 = 1 << 53;

// A part of the input that was run.
#[derive(Clone, Copy)]
struct Part {
    // The run behind it.
    run: Run,
    // How many bytes were read.
    read: usize,
    // Whether the system took the whole text.
    written: bool,
}

// Reads until the room is full, the input ends or a read fails, and answers how many bytes it put at the start of the room.
fn read_full<I: Read>(input: &mut I, room: &mut [u8]) -> usize
    ensures { IsPrefixLen result room.new }
{
    let mut done: usize = 0;
    while done < room.len() {
        let n = input.read(&mut room[done..]).unwrap_or(0);
        if n == 0 {
            break;
        }
        done += n;
    }
    done
}

// Hands the system what a part adds to the print. Setup, parts before and part are there for the contract to speak of.
fn hand_over<P: Print>(system: &P, s: Setup, parts: u64, part: &[u8], text: &[u8]) -> bool
    requires { Adds s parts part.now text.now }
{
    system.write_all(text).is_ok()
}

// Reads the next part of the input, and prints its lines.
fn run_part<I: Read, P: Print>(
    operations: &mut I,
    system: &P,
    s: Setup,
    parts: u64,
    run: Run,
    memory: &mut [u32],
    rows: &mut [u32],
    entries: &mut [u32],
    heads: &mut [u32],
    input: &mut [u8],
    out: &mut [u8],
) -> Part
    requires { (line_most * records_in (length input.old) ≤ length out.old)
        × (run.number + records_in (length input.old) < 2 ^ 64)
        × Reached s parts run (lent memory.old rows.old entries.old heads.old) }
    ensures { ((result.run, (lent memory.new rows.new entries.new heads.new, out.new))
        ≡ put_at out.old 0 (listed s (take result.read input.new) (listed_from run (lent memory.old rows.old entries.old heads.old))))
        × (result.read ≤ length input.new) }
{
    let n = read_full(operations, input);
    let r = replay::part(s, run, &input[..n], memory, rows, entries, heads, out);
    let end = r.end;
    let written = hand_over(system, s, parts, &input[..n], &out[..end]);
    Part {
        run: r,
        read: n,
        written,
    }
}

// Runs to the end of the input, to a bad record or to a write that fails, and answers the last part.
fn run_all<I: Read, P: Print>(
    operations: &mut I,
    system: &P,
    s: Setup,
    memory: &mut [u32],
    rows: &mut [u32],
    entries: &mut [u32],
    heads: &mut [u32],
    input: &mut [u8],
    out: &mut [u8],
) -> Part
    requires { Opened s × (lent memory.old rows.old entries.old heads.old ≡ zeros_for s)
        × (length input.old ≡ part_bytes)
        × (line_most * part_most ≤ length out.old) }
    ensures { Ended s result.run result.read result.written (lent memory.new rows.new entries.new heads.new) input.new }
{
    let mut r = replay::begin(s, memory, rows, entries, heads);
    let mut parts: u64 = 0;
    loop {
        let part = run_part(
            operations, system, s, parts, r, memory, rows, entries, heads, input, out,
        );
        r = part.run;
        parts += 1;
        let on = r.on & part.written & (part.read == input.len()) & (parts < MOST_PARTS);
        if !on {
            return part;
        }
    }
}

// Runs in the part of the program's room that the setup asks for.
fn cut<I: Read, P: Print>(
    operations: &mut I,
    system: &P,
    s: Setup,
    memory: &mut [u32],
    rows: &mut [u32],
    entries: &mut [u32],
    heads: &mut [u32],
    input: &mut [u8],
    out: &mut [u8],
)
    requires { Opened s × (lent memory.old rows.old entries.old heads.old ≡ whole_room)
        × (length input.old ≡ part_bytes)
        × (line_most * part_most ≤ length out.old) }
{
    let words = s.words() as usize;
    let banks = s.banks() as usize;
    let row_numbers = Row::NUMBERS * (s.c as usize);
    let entry_numbers = Entry::NUMBERS * (banks * (s.k as usize));
    let head_numbers = Head::NUMBERS * banks;
    run_all(
        operations,
        system,
        s,
        &mut memory[..words],
        &mut rows[..row_numbers],
        &mut entries[..entry_numbers],
        &mut heads[..head_numbers],
        input,
        out,
    );
}

// Makes the program's room, all zeros, and runs in it. The file is there for the contract to speak of.
fn start<S: Input + Print>(system: &S, file: &[u8], s: Setup)
    requires { Opens file.now s }
{
    let mut memory = [0u32; replay::WORDS];
    let mut rows = [0u32; replay::ROW_NUMBERS];
    let mut entries = [0u32; replay::ENTRY_NUMBERS];
    let mut heads = [0u32; replay::HEAD_NUMBERS];
    let mut input = [0u8; INPUT_BYTES];
    let mut out = [0u8; OUTPUT_BYTES];
    let mut operations = system.reader();
    cut(
        &mut operations,
        system,
        s,
        &mut memory,
        &mut rows,
        &mut entries,
        &mut heads,
        &mut input,
        &mut out,
    );
}

// Reads the file `setup`: no bytes where it is missing.
fn read_setup<S: Files>(system: &S, file: &mut [u8]) -> usize
    ensures { IsPrefixLen result file.new }
{
    match fs::open(system, "setup") {
        Ok(mut opened) => read_full(&mut opened, file),
        Err(_) => 0,
    }
}

// Hands the system the line of a refused setup: all that is printed, whatever the input.
fn refuse<P: Print>(system: &P, file: &[u8], line: &[u8])
    requires { PrintsOnly file.now line.now }
{
    let _ = system.write_all(line);
}

fn main(rt: HostRuntime) {
    // One byte more than a setup has, so that a file that is too long is seen.
    let mut file = [0u8; setuprecord::SETUP_BYTES + 1];
    let n = read_setup(&rt, &mut file);
    match replay::open(&file[..n]) {
        Ok(s) => start(&rt, &file[..n], s),
        Err(refusal) => refuse(&rt, &file[..n], &replay::setup_line(refusal.number())),
    }
}

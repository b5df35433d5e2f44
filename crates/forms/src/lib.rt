// What C passes and gets: structs of numbers, and the conversions between them and the controller's types.
#![tactic(auto)]

ghost use Rattle.std.specs.Prelude.{◌≡◌};
ghost use Rattle.forms.specs.Forms.{no_setup, checked_out, lent_out, no_lengths, mark_ok, state_in, state_out, started_out, reply_out, cycled_out, refused_by, told_out, operation_in, asked_of, operation_out, setup_read, operation_read};

use answers::Refusal;
use setup::Setup;

pub const DELIVERY_NONE: u32 = 0;

pub const DELIVERY_UNREADY: u32 = 1;

pub const DELIVERY_WORD: u32 = 2;

// The mark of a stopped state; a state that goes on has mark 0.
const STOPPED: u32 = 1;

// A setup, or refusal 1 and a setup of zeros.
#[repr(C)]
#[derive(Clone, Copy)]
pub struct Checked {
    pub answer: u32,
    pub setup: Setup,
}

// How many numbers each lent room has.
#[repr(C)]
#[derive(Clone, Copy)]
pub struct Lent {
    pub answer: u32,
    pub memory: u32,
    pub rows: u32,
    pub entries: u32,
    pub heads: u32,
}

// The state: the stop mark is a number.
#[repr(C)]
#[derive(Clone, Copy)]
pub struct State {
    pub stamp: u32,
    pub turn: u32,
    pub position: u32,
    pub stopped: u32,
}

// What a fresh start returns.
#[repr(C)]
#[derive(Clone, Copy)]
pub struct Started {
    pub answer: u32,
    pub state: State,
}

// An operation: the three numbers of its record.
#[repr(C)]
#[derive(Clone, Copy)]
pub struct Operation {
    pub kind: u32,
    pub address: u32,
    pub word: u32,
}

// A reply: the delivery is a number, with the word that leaves.
#[repr(C)]
#[derive(Clone, Copy)]
pub struct Reply {
    pub answer: u32,
    pub delivery: u32,
    pub word: u32,
    pub stamp: u32,
}

// What a cycle returns.
#[repr(C)]
#[derive(Clone, Copy)]
pub struct Cycled {
    pub state: State,
    pub reply: Reply,
}

// What a question returns.
#[repr(C)]
#[derive(Clone, Copy)]
pub struct Told {
    pub answer: u32,
    pub count: u32,
}

// What an operation record holds.
#[repr(C)]
#[derive(Clone, Copy)]
pub struct Recorded {
    pub answer: u32,
    pub operation: Operation,
}

// Why what C asks is no cycle of the controller: an operation that is none, or a mark out of range.
#[derive(Clone, Copy, Debug, PartialEq, Eq)]
pub enum Unasked {
    NoOperation,
    BadMark,
}

// A checked setup, or what a setup record holds: the setup, or refusal 1.
impl From<Result<Setup, Refusal>> for Checked {
    ghost from_gives = { λ r c. (c ≡ checked_out r) × (c ≡ setup_read r) };

    fn from(held: Result<Setup, Refusal>) -> Checked {
        match held {
            Ok(s) => Checked {
                answer: answers::DONE,
                setup: s,
            },
            Err(r) => Checked {
                answer: r.number(),
                setup: Setup::default(),
            },
        }
    }
}

// The lengths due.
impl From<model::Lengths> for Lent {
    ghost from_gives = { λ due l. l ≡ lent_out due };

    fn from(due: model::Lengths) -> Lent {
        Lent {
            answer: answers::DONE,
            memory: due.memory,
            rows: due.rows,
            entries: due.entries,
            heads: due.heads,
        }
    }
}

// Refusal 1 of a setup, which has no lengths.
pub fn no_lengths() -> Lent
    ensures { result ≡ no_lengths }
{
    Lent {
        answer: Refusal::BadSetup.number(),
        memory: 0,
        rows: 0,
        entries: 0,
        heads: 0,
    }
}

// Whether the mark is in range.
pub fn mark_ok(t: State) -> bool
    ensures { result ≡ mark_ok t }
{
    t.stopped <= STOPPED
}

// The state that C passes, its mark in range.
pub fn state_in(t: State) -> model::State
    ensures { result ≡ state_in t }
{
    model::State {
        stamp: t.stamp,
        turn: t.turn,
        position: t.position,
        stopped: t.stopped == STOPPED,
    }
}

// The state that C gets back.
impl From<model::State> for State {
    ghost from_gives = { λ t c. c ≡ state_out t };

    fn from(t: model::State) -> State {
        State {
            stamp: t.stamp,
            turn: t.turn,
            position: t.position,
            stopped: u32::from(t.stopped),
        }
    }
}

// A refused start gives the state back as C passed it, whatever its mark is.
#[tactic(auto, unfolding(crate::specs::Forms::started_out))]
pub fn started_out(t: State, started: model::Started) -> Started
    ensures { result ≡ started_out t started }
{
    if started.answer == answers::DONE {
        return Started {
            answer: answers::DONE,
            state: started.state.into(),
        };
    }
    Started {
        answer: started.answer,
        state: t,
    }
}

// The number of what leaves, and its word, 0 where none does.
impl From<port::Reply> for Reply {
    ghost from_gives = { λ r c. c ≡ reply_out r };

    fn from(r: port::Reply) -> Reply {
        let (delivery, word) = match r.delivery {
            port::Delivery::None => (DELIVERY_NONE, 0),
            port::Delivery::Unready => (DELIVERY_UNREADY, 0),
            port::Delivery::Word(word) => (DELIVERY_WORD, word),
        };
        Reply {
            answer: r.answer,
            delivery,
            word,
            stamp: r.stamp,
        }
    }
}

impl From<model::Cycled> for Cycled {
    ghost from_gives = { λ r c. c ≡ cycled_out r };

    fn from(r: model::Cycled) -> Cycled {
        Cycled {
            state: r.state.into(),
            reply: r.reply.into(),
        }
    }
}

// A refused call: delivery none, word and stamp 0, and the state as C passed it.
pub fn refuse(answer: u32, t: State) -> Cycled
    ensures { result ≡ refused_by answer t }
{
    Cycled {
        state: t,
        reply: Reply {
            answer,
            delivery: DELIVERY_NONE,
            word: 0,
            stamp: 0,
        },
    }
}

// What a question returned.
impl From<model::Waiting> for Told {
    ghost from_gives = { λ w c. c ≡ told_out w.answer w.count };

    fn from(w: model::Waiting) -> Told {
        Told {
            answer: w.answer,
            count: w.count,
        }
    }
}

// The operation that the three numbers mean, by the rule of its record.
impl TryFrom<Operation> for port::Operation {
    type Error = Refusal;

    ghost try_from_gives = { λ op r. r ≡ operation_in op };

    fn try_from(op: Operation) -> Result<port::Operation, Refusal> {
        records::operation_from(op.kind, op.address, op.word)
    }
}

// What C asks of a cycle: the operation is looked at first, then the mark.
#[tactic(auto, unfolding(crate::specs::Forms::asked_in))]
pub fn cycle_asked(t: State, op: Operation) -> Result<(model::State, port::Operation), Unasked>
    ensures { result ≡ asked_of t op }
{
    let Ok(o) = port::Operation::try_from(op) else {
        return Err(Unasked::NoOperation);
    };
    if mark_ok(t) {
        return Ok((state_in(t), o));
    }
    Err(Unasked::BadMark)
}

// The three numbers of an operation.
impl From<port::Operation> for Operation {
    ghost from_gives = { λ op c. c ≡ operation_out op };

    fn from(op: port::Operation) -> Operation {
        match op {
            port::Operation::Idle => Operation {
                kind: records::KIND_IDLE,
                address: 0,
                word: 0,
            },
            port::Operation::Read(a) => Operation {
                kind: records::KIND_READ,
                address: a.0,
                word: 0,
            },
            port::Operation::Write(a, word) => Operation {
                kind: records::KIND_WRITE,
                address: a.0,
                word,
            },
        }
    }
}

// What an operation record holds: the operation, or idle and answer 9.
impl From<Result<port::Operation, Refusal>> for Recorded {
    ghost from_gives = { λ r c. c ≡ operation_read r };

    fn from(held: Result<port::Operation, Refusal>) -> Recorded {
        match held {
            Ok(op) => Recorded {
                answer: answers::DONE,
                operation: op.into(),
            },
            Err(refusal) => Recorded {
                answer: refusal.number(),
                operation: port::Operation::Idle.into(),
            },
        }
    }
}

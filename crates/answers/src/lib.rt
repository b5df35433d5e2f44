// Document 01's answer numbers, written once. specs/Answers.antt has the same table for the contracts.
#![tactic(auto)]

ghost use Rattle.std.specs.Prelude.{◌≡◌};
ghost use Rattle.answers.specs.Answers.{number, answer_of};

// What a cycle that is not refused answers; 0 is also the answer of a fresh start, a question or a record that is done.
pub const DONE: u32 = 0;

pub const DROPPED: u32 = 5;

pub const STOPPING: u32 = 6;

// Why a call is refused.
#[derive(Clone, Copy, Debug, PartialEq, Eq)]
pub enum Refusal {
    BadSetup = 1,
    BadLength = 2,
    BadState = 3,
    BadAddress = 4,
    Stopped = 7,
    RoomTooSmall = 8,
    BadRecord = 9,
}

impl Refusal {
    // The number that the caller is answered.
    pub fn number(self) -> u32
        ensures { result ≡ number self }
    {
        self as u32
    }
}

// The answer of a call that hands out nothing: 0, or why it is refused.
pub fn answer_of(done: Result<(), Refusal>) -> u32
    ensures { result ≡ answer_of done }
{
    match done {
        Ok(()) => DONE,
        Err(refusal) => refusal.number(),
    }
}

// Operation records, 12 bytes each: reading and writing them.
#![tactic(auto)]

ghost use Rattle.std.specs.Prelude.{◌≡◌, ◌<◌, length};
ghost use Rattle.octets.specs.Bytes.{base};
ghost use Rattle.records.specs.Records.{good_if, operation_size, operation_from, operation_of, operation_layout, operation_bytes, operation_written};

use answers::Refusal;
use map::Address;
use port::Operation;

pub const OPERATION_BYTES: usize = 12;

pub const KIND_IDLE: u32 = 0;

pub const KIND_READ: u32 = 1;

pub const KIND_WRITE: u32 = 2;

fn good_if(test: bool, op: Operation) -> Result<Operation, Refusal>
    ensures { result ≡ good_if test op }
{
    if test {
        Ok(op)
    } else {
        Err(Refusal::BadRecord)
    }
}

// The operation that a record's numbers mean.
#[tactic(auto, unfolding(crate::specs::Records::operation_from))]
pub fn operation_from(kind: u32, address: u32, word: u32) -> Result<Operation, Refusal>
    ensures { result ≡ operation_from kind address word }
{
    match kind {
        KIND_IDLE => good_if((address == 0) & (word == 0), Operation::Idle),
        KIND_READ => good_if(word == 0, Operation::Read(Address(address))),
        KIND_WRITE => Ok(Operation::Write(Address(address), word)),
        _ => Err(Refusal::BadRecord),
    }
}

// The operation in a record, or that the record is bad.
#[tactic(auto, unfolding(crate::specs::Records::operation_of))]
pub fn read_operation(bytes: &[u8]) -> Result<Operation, Refusal>
    ensures { result ≡ operation_of bytes.now }
{
    let &[kind, 0, 0, 0, a0, a1, a2, a3, w0, w1, w2, w3] = bytes else {
        return Err(Refusal::BadRecord);
    };
    operation_from(
        u32::from(kind),
        u32::from_le_bytes([a0, a1, a2, a3]),
        u32::from_le_bytes([w0, w1, w2, w3]),
    )
}

// Kind, three zero bytes, address and word.
fn operation_layout(kind: u32, address: u32, word: u32) -> [u8; OPERATION_BYTES]
    requires { kind < base }
    ensures { result ≡ operation_layout kind address word }
{
    let [a0, a1, a2, a3] = address.to_le_bytes();
    let [w0, w1, w2, w3] = word.to_le_bytes();
    [kind as u8, 0, 0, 0, a0, a1, a2, a3, w0, w1, w2, w3]
}

// The bytes of an operation.
#[tactic(auto, unfolding(crate::specs::Records::operation_bytes))]
fn operation_bytes(op: Operation) -> [u8; OPERATION_BYTES]
    ensures { result ≡ operation_bytes op }
{
    match op {
        Operation::Idle => operation_layout(KIND_IDLE, 0, 0),
        Operation::Read(x) => operation_layout(KIND_READ, x.0, 0),
        Operation::Write(x, word) => operation_layout(KIND_WRITE, x.0, word),
    }
}

// Writes an operation over the whole room; a room of another length is refused by 2.
#[tactic(auto, unfolding(crate::specs::Records::operation_written))]
pub fn write_operation(op: Operation, room: &mut [u8]) -> Result<(), Refusal>
    ensures { (result, room.new) ≡ operation_written op room.old }
{
    if room.len() != OPERATION_BYTES {
        return Err(Refusal::BadLength);
    }
    room.copy_from_slice(&operation_bytes(op));
    Ok(())
}

// The setup record, 20 bytes: reading and writing it.
#![tactic(auto)]

ghost use Rattle.std.specs.Prelude.{◌≡◌};
ghost use Rattle.setuprecord.specs.SetupRecord.{allowed, setup_of, setup_bytes, setup_written};

use answers::Refusal;
use setup::Setup;

pub const SETUP_BYTES: usize = 20;

// The setup is in range once its defaults are in.
#[tactic(auto, unfolding(crate::specs::SetupRecord::allowed))]
fn allowed(s: Setup) -> bool
    ensures { result ≡ allowed s }
{
    Setup::checked(s).is_ok()
}

// The setup in a record, a default given as 0 still 0, or that the record is refused.
#[tactic(auto, unfolding(crate::specs::SetupRecord::setup_of))]
pub fn read_setup(bytes: &[u8]) -> Result<Setup, Refusal>
    ensures { result ≡ setup_of bytes.now }
{
    let &[mode, a, s, m, k0, k1, d0, d1, c0, c1, 0, 0, ref map @ ..] = bytes else {
        return Err(Refusal::BadSetup);
    };
    let &[u0, u1, u2, u3, v0, v1, v2, v3] = map else {
        return Err(Refusal::BadSetup);
    };
    let setup = Setup {
        mode,
        a,
        s,
        m,
        k: u16::from_le_bytes([k0, k1]),
        delta: u16::from_le_bytes([d0, d1]),
        c: u16::from_le_bytes([c0, c1]),
        u: u32::from_le_bytes([u0, u1, u2, u3]),
        v: u32::from_le_bytes([v0, v1, v2, v3]),
    };
    if allowed(setup) {
        Ok(setup)
    } else {
        Err(Refusal::BadSetup)
    }
}

// Mode, a, s, m, K, delta, C, two zero bytes, u and v.
fn setup_bytes(s: Setup) -> [u8; SETUP_BYTES]
    ensures { result ≡ setup_bytes s }
{
    let [k0, k1] = s.k.to_le_bytes();
    let [d0, d1] = s.delta.to_le_bytes();
    let [c0, c1] = s.c.to_le_bytes();
    let [u0, u1, u2, u3] = s.u.to_le_bytes();
    let [v0, v1, v2, v3] = s.v.to_le_bytes();
    [
        s.mode, s.a, s.s, s.m, k0, k1, d0, d1, c0, c1, 0, 0, u0, u1, u2, u3, v0, v1, v2, v3,
    ]
}

// Writes a setup over the whole room; out of range it is refused by 1, then a room of another length by 2.
#[tactic(auto, unfolding(crate::specs::SetupRecord::setup_written))]
pub fn write_setup(s: Setup, room: &mut [u8]) -> Result<(), Refusal>
    ensures { (result, room.new) ≡ setup_written s room.old }
{
    if !allowed(s) {
        return Err(Refusal::BadSetup);
    }
    if room.len() != SETUP_BYTES {
        return Err(Refusal::BadLength);
    }
    room.copy_from_slice(&setup_bytes(s));
    Ok(())
}

// A subtotal's double for the charting program: its bits in lent room.
#![tactic(auto)]

ghost use Rattle.std.specs.Prelude.{◌≡◌, ◌≤◌, length};
ghost use Rattle.form.specs.Ruling.{on_front};
ghost use Rattle.form.specs.Bytes.{little_endian};
ghost use Rattle.charted.specs.Subtotal.{subtotal_call, double_by, bits_told};

use doubles::Doubles;
use form::{Refusal, room_for};

fn by_code(d: Doubles, code: u32) -> f64
    ensures { result ≡ double_by code d }
{
    if code == 0 {
        return d.onsite;
    }
    if code == 1 { d.offsite } else { d.decay }
}

// The lowest byte first.
fn put_bits(bits: u64, room: &mut [u8])
    requires { 8 ≤ length room.old }
    ensures { room.new ≡ on_front (little_endian 8 bits) room.old }
{
    let bytes = bits.to_le_bytes();
    room[..8].copy_from_slice(&bytes);
}

// The subtotal's bits at the front of the room; or the rule that is broken, and the room as it was.
pub fn tell(bytes: &[u8], code: u32, room: &mut [u8]) -> Result<(), Refusal>
    ensures value { result ≡ subtotal_call bytes.now code room.old }
    ensures room_after { room.new ≡ bits_told bytes.now code room.old }
{
    let d = doubles::subtotals(bytes)?;
    if 2 < code {
        return Err(Refusal {
            number: 11,
            place: 0,
        });
    }
    room_for(8, room.len())?;
    put_bits(f64::to_bits(by_code(d, code)), room);
    Ok(())
}

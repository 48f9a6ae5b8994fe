// The row that weighs most in a subtotal, as three numbers for programs in C, in lent room.
#![tactic(auto)]

ghost use Rattle.std.specs.Prelude.{◌≡◌};
ghost use Rattle.weighed.specs.Heaviest.{three, three_call, three_after, heaviest_call, heaviest_told};

use form::{Refusal, room_for};

// Three numbers at the front of the room; or 9, and the room as it was.
fn put_three(x: u64, y: u64, z: u64, room: &mut [u64]) -> Result<(), Refusal>
    ensures value { result ≡ three_call room.old }
    ensures room_after { room.new ≡ three_after (three x y z) room.old (three_call room.old) }
{
    room_for(3, room.len())?;
    room[0] = x;
    room[1] = y;
    room[2] = z;
    Ok(())
}

// The row that weighs most in a subtotal at the front of the room; or the rule that is broken, and the room as it was.
pub fn tell(bytes: &[u8], code: u32, room: &mut [u64]) -> Result<(), Refusal>
    ensures value { result ≡ heaviest_call bytes.now code room.old }
    ensures room_after { room.new ≡ heaviest_told bytes.now code room.old }
{
    match heaviest::heaviest(bytes, code)? {
        None => put_three(0, 0, 0, room),
        Some(w) => put_three(1, w.id as u64, w.part, room),
    }
}

// Why a text of rows can't be packed: the lines of its refusal, or how many bytes its return has, in lent room.
#![tactic(auto)]

mod refused;
mod told;

ghost use Rattle.std.specs.Prelude.{◌≡◌, ◌≤◌, length};
ghost use Rattle.phrases.specs.Lines.{WrittenIn};
ghost use Rattle.phrases.specs.Room.{put_of, text_after};
ghost use Rattle.objections.specs.Objections.{pack_why, why_room};

use crate::refused::put_rows;
use crate::told::put_fault;
use form::KINDS;
use phrases::put_text;
use texts::{AREA_ROOM, enter};

// Room that is always enough for the lines.
pub const WHY_ROOM: usize = 400;

// The lines of any text, in room that is long enough for any lines.
fn write_why(text: &[u8], out: &mut [u8]) -> usize
    requires { why_room ≤ length out.old }
    ensures { WrittenIn why_room (pack_why text.now) out.old out.new 0 result }
{
    let mut lengths = [0u32; KINDS];
    let mut area = [0u32; AREA_ROOM];
    match enter(text, &mut lengths, &mut area) {
        Ok(entered) => put_rows(
            text,
            entered.edition,
            &lengths,
            &area[..entered.used],
            out,
            0,
        ),
        Err(fault) => put_fault(fault, out, 0),
    }
}

// Why a text can't be packed, or `packed` and the bytes of its return: the lines at the front of the room, and their length; a room too short for them is left as it was.
pub fn say_why(text: &[u8], room: &mut [u8]) -> Option<usize>
    ensures value { result ≡ put_of (pack_why text.now) room.old }
    ensures room_after { room.new ≡ text_after (pack_why text.now) room.old result }
    ensures text_len_bound { length (pack_why text.now) ≤ why_room }
{
    put_text::<WHY_ROOM, _>(room, |out| write_why(text, out))
}

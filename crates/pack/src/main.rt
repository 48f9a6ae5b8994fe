// Reads a text of rows on standard input and writes its return to standard output; what is wrong with it goes to standard error.
#![tactic(auto)]

ghost use Rattle.std.specs.Prelude.{◌≤◌, length};
ghost use Rattle.form.specs.Block.{longest};
ghost use Rattle.objections.specs.Objections.{why_room};

use console::{complain, put_sized, take};
use form::LONGEST;
use objections::{WHY_ROOM, say_why};
use packing::pack;

// One byte more than the longest text, so that a longer input is refused for its length.
const TEXT_ROOM: usize = 131073;

// Room of WHY_ROOM bytes is never too short for the text.
fn refuse(rt: &HostRuntime, text: &[u8], room: &mut [u8])
    requires { why_room ≤ length room.old }
{
    let done = say_why(text, room);
    complain(rt, room, done);
}

// Room of LONGEST bytes is never too short for a return.
fn hand_out(rt: &HostRuntime, text: &[u8], room: &mut [u8], size: &mut [u32])
    requires { (longest ≤ length room.old) × (1 ≤ length size.old) }
{
    match pack(text, room, size) {
        Ok(()) => {
            put_sized(
                rt,
                room,
                size,
                b"pack: standard output did not take the whole return\n",
            );
        }
        Err(_) => {
            let mut why = [0u8; WHY_ROOM];
            refuse(rt, text, &mut why);
        }
    }
}

fn main(rt: HostRuntime) {
    let mut text = [0u8; TEXT_ROOM];
    let Ok(n) = take(&rt, &mut text, b"pack: the input could not be read\n") else {
        return;
    };
    let mut room = [0u8; LONGEST];
    let mut size = [0u32; 1];
    hand_out(&rt, &text[..n], &mut room, &mut size);
}

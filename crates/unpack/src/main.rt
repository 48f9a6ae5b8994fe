// Reads a return on standard input and writes its rows as text to standard output; why a return is refused goes to standard error.
#![tactic(auto)]

ghost use Rattle.std.specs.Prelude.{◌≤◌, length};
ghost use Rattle.explained.specs.Explained.{explain_room};
ghost use Rattle.unpacked.specs.Rooms.{unpack_room};

use console::{complain, put_sized, take};
use explained::{EXPLAIN_ROOM, explain_lines};
use form::LONGEST;
use unpacked::{UNPACK_ROOM, unpack};

// Room of EXPLAIN_ROOM bytes is never too short for the text.
fn refuse(rt: &HostRuntime, bytes: &[u8], room: &mut [u8])
    requires { explain_room ≤ length room.old }
{
    let done = explain_lines(bytes, room);
    complain(rt, room, done);
}

// Room of UNPACK_ROOM bytes is never too short for a return's rows.
fn hand_out(rt: &HostRuntime, bytes: &[u8], room: &mut [u8], size: &mut [u32])
    requires { (unpack_room ≤ length room.old) × (1 ≤ length size.old) }
{
    match unpack(bytes, room, size) {
        Ok(()) => {
            put_sized(
                rt,
                room,
                size,
                b"unpack: standard output did not take all the rows\n",
            );
        }
        Err(_) => {
            let mut why = [0u8; EXPLAIN_ROOM];
            refuse(rt, bytes, &mut why);
        }
    }
}

// One byte more than the longest return is taken, so that a longer input is refused for its length.
fn main(rt: HostRuntime) {
    let mut bytes = [0u8; LONGEST + 1];
    let Ok(n) = take(&rt, &mut bytes, b"unpack: the input could not be read\n") else {
        return;
    };
    let mut room = [0u8; UNPACK_ROOM];
    let mut size = [0u32; 1];
    hand_out(&rt, &bytes[..n], &mut room, &mut size);
}

// Reads a return on standard input and prints why it was refused, or which rows weigh most and where the cleared biomass went.
#![tactic(auto)]

ghost use Rattle.std.specs.Prelude.{◌≤◌, length};
ghost use Rattle.explained.specs.Explained.{explain_room};

use console::take;
use explained::{EXPLAIN_ROOM, explain_lines};
use form::LONGEST;

// Room of EXPLAIN_ROOM bytes is never too short for the text.
fn print(rt: &HostRuntime, bytes: &[u8], room: &mut [u8])
    requires { explain_room ≤ length room.old }
{
    let done = explain_lines(bytes, room);
    console::print(
        rt,
        room,
        done,
        b"explain: standard output did not take all the lines\n",
    );
}

// One byte more than the longest return is taken, so that a longer input is refused for its length.
fn main(rt: HostRuntime) {
    let mut bytes = [0u8; LONGEST + 1];
    let Ok(n) = take(&rt, &mut bytes, b"explain: the input could not be read\n") else {
        return;
    };
    let mut room = [0u8; EXPLAIN_ROOM];
    print(&rt, &bytes[..n], &mut room);
}

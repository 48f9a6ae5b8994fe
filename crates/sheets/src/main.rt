// Reads a return on standard input and prints its lines.
#![tactic(auto)]

ghost use Rattle.std.specs.Prelude.{◌≤◌, length};
ghost use Rattle.report.specs.Lines.{lines_room};

use console::take;
use form::LONGEST;
use report::LINES_ROOM;

// Room of LINES_ROOM bytes is never too short for the text.
fn print(rt: &HostRuntime, bytes: &[u8], room: &mut [u8])
    requires { lines_room ≤ length room.old }
{
    let done = report::lines(bytes, room);
    console::print(
        rt,
        room,
        done,
        b"sheets: standard output did not take all the lines\n",
    );
}

// One byte more than the longest return is taken, so that a longer input is refused for its length.
fn main(rt: HostRuntime) {
    let mut bytes = [0u8; LONGEST + 1];
    let Ok(n) = take(&rt, &mut bytes, b"sheets: the input could not be read\n") else {
        return;
    };
    let mut room = [0u8; LINES_ROOM];
    print(&rt, &bytes[..n], &mut room);
}

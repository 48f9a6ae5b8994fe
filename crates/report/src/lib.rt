// The lines that `sheets` prints, as text in lent room.
#![tactic(auto)]

mod text;

ghost use Rattle.std.specs.Prelude.{◌≤◌, ◌≡◌, length};
ghost use Rattle.phrases.specs.Room.{put_of, text_after};
ghost use Rattle.report.specs.Lines.{lines_room, printed};

use listed::FIGURES;
use phrases::put_text;

// Room that is always enough for the lines.
pub const LINES_ROOM: usize = 60 * FIGURES;

// The lines of any bytes at the front of the room, and the text's length; a room too short for them is left as it was.
pub fn lines(bytes: &[u8], room: &mut [u8]) -> Option<usize>
    ensures value { result ≡ put_of (printed bytes.now) room.old }
    ensures room_after { room.new ≡ text_after (printed bytes.now) room.old result }
    ensures bytes_len_bound { length (printed bytes.now) ≤ lines_room }
{
    put_text::<LINES_ROOM, _>(room, |out| text::write_lines(bytes, out))
}

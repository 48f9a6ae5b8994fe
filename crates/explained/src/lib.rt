// Why a return was refused, or which rows weigh most and where its cleared biomass went: the explanation of any bytes, and its text in lent room.
#![tactic(auto)]

mod text;

ghost use Rattle.std.specs.Prelude.{◌≡◌, ◌≤◌, length};
ghost use Rattle.phrases.specs.Room.{put_of, text_after};
ghost use Rattle.explained.specs.Explained.{explanation_of, explained, explain_room};

use heaviest::{Weights, weigh_rows};
use matter::{Matter, work_matter};
use phrases::put_text;
use reasons::{Reason, reason_of};

// Room that is always enough for the text.
pub const EXPLAIN_ROOM: usize = 500;

// Any bytes of any length: its heaviest rows and where the cleared biomass went, or why it is refused.
pub fn explain(bytes: &[u8]) -> Result<(Weights, Matter), Reason>
    ensures { result ≡ explanation_of bytes.now }
{
    match judge::judge(bytes) {
        Ok(c) => Ok((weigh_rows(bytes, c), work_matter(bytes, c))),
        Err(r) => Err(reason_of(bytes, r.number, r.place)),
    }
}

// The text of any bytes at the front of the room, and its length; a room too short for it is left as it was.
pub fn explain_lines(bytes: &[u8], room: &mut [u8]) -> Option<usize>
    ensures value { result ≡ put_of (explained bytes.now) room.old }
    ensures room_after { room.new ≡ text_after (explained bytes.now) room.old result }
    ensures bytes_len_bound { length (explained bytes.now) ≤ explain_room }
{
    put_text::<EXPLAIN_ROOM, _>(room, |out| text::write_text(bytes, out))
}

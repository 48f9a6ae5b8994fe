// Text in lent room: lines of names with a value behind each, words, and a text where the room is perhaps too short.
#![tactic(auto)]

pub mod text;

ghost use Rattle.std.specs.Prelude.{◌≡◌, ◌+◌, ◌^◌, ◌<◌, ◌≤◌, length};
ghost use Rattle.std.specs.Fn.{FnOnceTakesAtMut, FnOnceReturnsAtMut};
ghost use Rattle.decimal.specs.Digits.{WrittenAt};
ghost use Rattle.phrases.specs.Lines.{WrittenIn, spaces, amounts, filled_in, one_filled, two_filled, refused_line};
ghost use Rattle.phrases.specs.Words.{word_in};
ghost use Rattle.phrases.specs.Room.{put_of, text_after, IsPut, Writes};

use text::{plain, put_byte, put_value};
use wide::signed::{Signed, with_sign};

// Lines: the names, each with a space behind it, and after each space the next value and a line feed. There are as many values as spaces or more.
pub fn put_lines(names: &[u8], values: &[Signed], out: &mut [u8], at: usize) -> usize
    requires enough { spaces names.now ≤ length values.now }
    requires room { at + length (filled_in names.now (amounts values.now)) ≤ length out.old }
    ensures { WrittenAt (filled_in names.now (amounts values.now)) out.old out.new at result }
{
    let mut j: usize = 0;
    let mut to = at;
    for &b in names {
        to = put_byte(b, out, to);
        if b == 32 {
            let z = values[j];
            to = put_value(with_sign(z.below, z.size), 10, out, to);
            j += 1;
        }
    }
    to
}

// One line with a plain number, by its name with a space behind it.
pub fn put_one(name: &[u8], n: u64, out: &mut [u8], at: usize) -> usize
    requires { (spaces name.now ≤ 1) × (at + (length name.now + 21) ≤ length out.old) }
    ensures { WrittenIn (length name.now + 21) (one_filled name.now n) out.old out.new at result }
{
    let values = [plain(n)];
    put_lines(name, &values, out, at)
}

// Two such lines, by their names.
pub fn put_two(names: &[u8], m: u32, n: u32, out: &mut [u8], at: usize) -> usize
    requires { (spaces names.now ≤ 2) × (at + (length names.now + 42) ≤ length out.old) }
    ensures { WrittenIn (length names.now + 42) (two_filled names.now m n) out.old out.new at result }
{
    let values = [plain(m as u64), plain(n as u64)];
    put_lines(names, &values, out, at)
}

// The one line of a refusal.
pub fn put_refused(number: u8, place: u32, out: &mut [u8], at: usize) -> usize
    requires { at + length (refused_line number place) ≤ length out.old }
    ensures { WrittenAt (refused_line number place) out.old out.new at result }
{
    let a = text::put(b"refused ", out, at);
    let b = put_value(plain(number as u64), 32, out, a);
    put_value(plain(place as u64), 10, out, b)
}

// Word i of some words at a place; past the last there is none.
pub fn put_word(words: &[&[u8]], i: usize, out: &mut [u8], at: usize) -> usize
    requires { at + length (word_in i words.now) ≤ length out.old }
    ensures { WrittenAt (word_in i words.now) out.old out.new at result }
{
    match words.get(i) {
        Some(word) => text::put(word, out, at),
        None => at,
    }
}

// A text at the front of the room, and its length; or none, and the room as it was, where it is shorter.
pub fn put_short(text: &[u8], room: &mut [u8]) -> Option<usize>
    ensures value { result ≡ put_of text.now room.old }
    ensures room_after { room.new ≡ text_after text.now room.old result }
{
    if room.len() < text.len() {
        return None;
    }
    Some(text::put(text, room, 0))
}

// The text that `write` writes into any room of ROOM bytes or more, at the front of the room, and its length; a room too short for it is left as it was.
// Room for any text is written to as it is, and only shorter room needs the text elsewhere first.
pub fn put_text<const ROOM: usize, W: FnOnce(&mut [u8]) -> usize>(
    room: &mut [u8],
    write: W,
) -> Option<usize>
    requires size { ROOM < 2 ^ 63 }
    requires writes { (text : _) × Writes ROOM (FnOnceTakesAtMut W.FnOnce write) (FnOnceReturnsAtMut W.FnOnce write) text }
    ensures { (text : _) → Writes ROOM (FnOnceTakesAtMut W.FnOnce write) (FnOnceReturnsAtMut W.FnOnce write) text → IsPut ROOM text room.old room.new result }
{
    if ROOM <= room.len() {
        return Some(write(room));
    }
    let mut space = [0u8; ROOM];
    let n = write(&mut space);
    put_short(&space[..n], room)
}

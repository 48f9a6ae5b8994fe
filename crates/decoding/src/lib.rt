// Rows decoded from the records of the caller's bytes, by the layouts that `filing` writes them by.
#![tactic(auto)]

ghost use Rattle.std.specs.Prelude.{◌≡◌, ◌+◌, ◌*◌, ◌≤◌, ◌<◌, length};
ghost use Rattle.std.proofs.lemmas.List.Edits.{sets};
ghost use Rattle.form.specs.Layout.{layout, numbers_of, row_at};
ghost use Rattle.form.specs.Block.{blocks};
ghost use Rattle.filing.specs.Written.{in_turn};
ghost use Rattle.filing.specs.Tables.{row_on};

use form::layout::{field, numbers};
use form::number_at;

// The row of the record at `at`, to the room from `to` on.
fn decode_row(bytes: &[u8], kind: usize, at: usize, room: &mut [u32], to: usize)
    requires { (at + 40 ≤ length bytes.now) × (to + numbers_of kind ≤ length room.old) }
    ensures { room.new ≡ sets room.old to (row_at (layout kind) bytes.now at) }
{
    let n = numbers(kind);
    let mut k: usize = 0;
    for i in 0..n {
        let f = field(kind, i);
        k += f.zeros;
        room[to + i] = number_at(bytes, at + k, f.width);
        k += f.width;
    }
}

// The rows of n records from a place on, to the room from `start` on.
fn decode_rows(bytes: &[u8], kind: usize, place: usize, n: usize, room: &mut [u32], start: usize)
    requires { (place + n ≤ 12 * blocks bytes.now) × (start + numbers_of kind * n ≤ length room.old) }
    ensures { room.new ≡ sets room.old start (in_turn (row_on kind bytes.now) place n) }
{
    let m = numbers(kind);
    let mut to = start;
    for i in 0..n {
        let j = place + i;
        decode_row(bytes, kind, 512 * (j / 12) + 8 + 40 * (j % 12), room, to);
        to += m;
    }
}

// The kind by its number, so that the compiler lays out each kind's rows by itself.
pub fn decode_kind(
    bytes: &[u8],
    kind: usize,
    place: usize,
    n: usize,
    room: &mut [u32],
    start: usize,
)
    requires { (place + n ≤ 12 * blocks bytes.now) × (start + numbers_of kind * n ≤ length room.old) }
    ensures { room.new ≡ sets room.old start (in_turn (row_on kind bytes.now) place n) }
{
    match kind {
        1 => decode_rows(bytes, 1, place, n, room, start),
        2 => decode_rows(bytes, 2, place, n, room, start),
        3 => decode_rows(bytes, 3, place, n, room, start),
        4 => decode_rows(bytes, 4, place, n, room, start),
        5 => decode_rows(bytes, 5, place, n, room, start),
        6 => decode_rows(bytes, 6, place, n, room, start),
        7 => decode_rows(bytes, 7, place, n, room, start),
        8 => decode_rows(bytes, 8, place, n, room, start),
        _ => decode_rows(bytes, kind, place, n, room, start),
    }
}

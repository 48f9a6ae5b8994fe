// The text of an accepted return, in lent room.
#![tactic(auto)]

mod print;

ghost use Rattle.std.specs.Prelude.{◌≡◌, [], ◌∷◌, ◌++◌, ◌+◌, ◌*◌, ◌≤◌, ◌<◌, length, take};
ghost use Rattle.form.specs.Layout.{kinds, numbers_of};
ghost use Rattle.form.specs.Block.{blocks};
ghost use Rattle.form.specs.Verdict.{verdict_of, Formed};
ghost use Rattle.filing.specs.Written.{in_turn};
ghost use Rattle.filing.specs.Tables.{row_on};
ghost use Rattle.rows.specs.Reading.{row_lists};
ghost use Rattle.cells.specs.Lines.{ended};
ghost use Rattle.phrases.specs.Lines.{WrittenIn};
ghost use Rattle.unpacked.specs.Unpacked.{kind_lines, lists_lines, edition_line, unpacked_text};
ghost use Rattle.unpacked.specs.Rooms.{kind_room, kinds_room, edition_room, unpack_room};
ghost use Rattle.unpacked.specs.Calls.{unpack_call, text_unpacked, size_unpacked};

use decoding::decode_kind;
use form::layout::numbers;
use form::{Counts, KINDS, Refusal, blocks_for, count_of, room_for};
use judge::judge;
use phrases::put_text;
use phrases::text::{put, put_byte};

// Room that is always enough for the text.
pub const UNPACK_ROOM: usize = 33500;

// The first line.
fn put_edition(edition: u32, out: &mut [u8], at: usize) -> usize
    requires { at + edition_room ≤ length out.old }
    ensures { WrittenIn edition_room (edition_line edition ++ 10 ∷ []) out.old out.new at result }
{
    let a = put(b"edition,", out, at);
    let b = decimal::write(wide::of(edition as u64), out, a);
    put_byte(10, out, b)
}

// The n rows of a kind from a place on, decoded to the front of the room: how many numbers they are.
fn decode_rows(bytes: &[u8], kind: usize, place: usize, n: usize, rows: &mut [u32]) -> usize
    requires { (n ≤ 32) × (place + n ≤ 12 * blocks bytes.now) × (length rows.old ≡ 512) }
    ensures { (result ≡ numbers_of kind * n) × (result ≤ 512) × (take result rows.new ≡ in_turn (row_on kind bytes.now) place n) }
{
    decode_kind(bytes, kind, place, n, rows, 0);
    numbers(kind) * n
}

// The lines of a kind, of the n rows from a place on.
fn put_decoded(
    bytes: &[u8],
    kind: usize,
    place: usize,
    n: usize,
    out: &mut [u8],
    at: usize,
) -> usize
    requires { (0 < kind) × (kind ≤ kinds) × (n ≤ 32) × (place + n ≤ 12 * blocks bytes.now) × (at + kind_room kind ≤ length out.old) }
    ensures { WrittenIn (kind_room kind) (ended (kind_lines kind (in_turn (row_on kind bytes.now) place n))) out.old out.new at result }
{
    let mut rows = [0u32; 512];
    let end = decode_rows(bytes, kind, place, n, &mut rows);
    print::put_kind(kind, &rows[0..end], n, out, at)
}

// Kind after kind, from the kind's first block on.
fn put_kinds(bytes: &[u8], counts: Counts, out: &mut [u8], at: usize) -> usize
    requires { Formed bytes.now counts × (at + kinds_room kinds ≤ length out.old) }
    ensures { WrittenIn (kinds_room kinds) (ended (lists_lines 1 (row_lists bytes.now))) out.old out.new at result }
{
    let mut first: usize = 0;
    let mut to = at;
    for k in 0..KINDS {
        let n = count_of(counts, k + 1) as usize;
        to = put_decoded(bytes, k + 1, 12 * first, n, out, to);
        first += blocks_for(n);
    }
    to
}

// The whole text at the front of the room.
fn write_unpacked(bytes: &[u8], counts: Counts, out: &mut [u8]) -> usize
    requires { Formed bytes.now counts × (unpack_room ≤ length out.old) }
    ensures { WrittenIn unpack_room (unpacked_text bytes.now) out.old out.new 0 result }
{
    let next = put_edition(counts.edition, out, 0);
    put_kinds(bytes, counts, out, next)
}

fn unpack_accepted(
    bytes: &[u8],
    counts: Counts,
    room: &mut [u8],
    size: &mut [u32],
) -> Result<(), Refusal>
    requires { verdict_of bytes.now ≡ Ok counts }
    ensures value { result ≡ unpack_call bytes.now room.old size.old }
    ensures room_after { room.new ≡ text_unpacked bytes.now room.old size.old }
    ensures size_after { size.new ≡ size_unpacked bytes.now room.old size.old }
{
    room_for(1, size.len())?;
    match put_text::<UNPACK_ROOM, _>(room, |out| write_unpacked(bytes, counts, out)) {
        None => Err(Refusal {
            number: 9,
            place: 0,
        }),
        Some(n) => {
            size[0] = n as u32;
            Ok(())
        }
    }
}

// The text of an accepted return at the front of the room and its number of bytes as the first size; or the rule that is broken, and both as they were.
pub fn unpack(bytes: &[u8], room: &mut [u8], size: &mut [u32]) -> Result<(), Refusal>
    ensures value { result ≡ unpack_call bytes.now room.old size.old }
    ensures room_after { room.new ≡ text_unpacked bytes.now room.old size.old }
    ensures size_after { size.new ≡ size_unpacked bytes.now room.old size.old }
{
    let counts = judge(bytes)?;
    unpack_accepted(bytes, counts, room, size)
}

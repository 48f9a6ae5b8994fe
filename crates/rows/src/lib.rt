// Rows read from a return to lent memory, and written as a return. Lent memory is stored to only when every test has passed.
#![tactic(auto)]

ghost use Rattle.std.specs.Prelude.{◌≡◌, suc, ◌+◌, ◌*◌, ◌≤◌, ◌<◌, length};
ghost use Rattle.std.proofs.lemmas.List.Edits.{sets};
ghost use Rattle.form.specs.First.{first};
ghost use Rattle.form.specs.Layout.{kinds};
ghost use Rattle.form.specs.Verdict.{Formed};
ghost use Rattle.filing.specs.Lists.{cut};
ghost use Rattle.lists.specs.Rules.{Good, blocks_from};
ghost use Rattle.rows.specs.Reading.{area_to, outgrown, read_answer, room_after};
ghost use Rattle.rows.specs.Writing.{written, answer_from9, write_answer, bytes_after};

use balance::unwritten::rule_lists;
use decoding::decode_kind;
use filing::write_kind;
use form::layout::numbers;
use form::{Counts, KINDS, Refusal, blocks_for, count_of, refuse, room_for};
use judge::judge;
use lists::{blocks_in, blocks_of, first_bad_list, length_at, rule_records};

// The blocks of one kind after the other, n in all.
fn write_blocks(edition: u32, lengths: &[u32], rows: &[u32], n: usize, room: &mut [u8])
    requires good { Good lengths.now (length rows.now) }
    requires n_value { (n ≡ blocks_from 1 lengths.now) × (n ≤ 60) × (512 * n ≤ length room.old) }
    ensures { room.new ≡ sets room.old 0 (written edition (cut lengths.now rows.now)) }
{
    let mut from: usize = 0;
    let mut start: usize = 0;
    for k in 0..KINDS {
        let m = length_at(lengths, k);
        let end = from + m;
        write_kind(edition, k + 1, &rows[from..end], start, n, room);
        start += blocks_of(k + 1, m);
        from = end;
    }
}

// Rows that break no rule.
fn write_sound(
    edition: u32,
    lengths: &[u32],
    rows: &[u32],
    room: &mut [u8],
) -> Result<usize, Refusal>
    requires { Good lengths.now (length rows.now) }
    ensures value { result ≡ answer_from9 edition lengths.now rows.now room.old }
    ensures room_after { room.new ≡ bytes_after edition lengths.now rows.now room.old result }
{
    let n = blocks_in(lengths);
    room_for(512 * n, room.len())?;
    write_blocks(edition, lengths, rows, n, room);
    Ok(512 * n)
}

// Any rows of any lengths, kind after kind: their return, of this edition, to the front of the room.
pub fn write(edition: u32, lengths: &[u32], rows: &[u32], room: &mut [u8]) -> Result<usize, Refusal>
    ensures value { result ≡ write_answer edition lengths.now rows.now room.old }
    ensures room_after { room.new ≡ bytes_after edition lengths.now rows.now room.old result }
{
    refuse(10, first_bad_list(edition, lengths, rows.len()))?;
    rule_records(edition, lengths, rows)?;
    rule_lists(lengths, rows)?;
    write_sound(edition, lengths, rows, room)
}

// The lowest kind whose rows no longer fit room for m numbers.
fn first_outgrown(bytes: &[u8], counts: Counts, m: usize) -> Option<u32>
    requires { Formed bytes.now counts }
    ensures { result ≡ first (outgrown bytes.now m) (suc kinds) }
{
    let mut need: usize = 0;
    for k in 0..KINDS {
        need += numbers(k + 1) * count_of(counts, k + 1) as usize;
        if m < need {
            return Some(k as u32 + 1);
        }
    }
    None
}

// Each kind's rows from its first place on, behind those of the kinds before it.
fn read_rows(bytes: &[u8], counts: Counts, room: &mut [u32])
    requires { Formed bytes.now counts × (length (area_to bytes.now kinds) ≤ length room.old) }
    ensures { room.new ≡ sets room.old 0 (area_to bytes.now kinds) }
{
    let mut first: usize = 0;
    let mut to: usize = 0;
    for k in 0..KINDS {
        let n = count_of(counts, k + 1) as usize;
        decode_kind(bytes, k + 1, 12 * first, n, room, to);
        to += numbers(k + 1) * n;
        first += blocks_for(n);
    }
}

// Any bytes: their rows, kind after kind, to the front of the room.
pub fn read(bytes: &[u8], room: &mut [u32]) -> Result<Counts, Refusal>
    ensures value { result ≡ read_answer bytes.now room.old }
    ensures room_after { room.new ≡ room_after bytes.now room.old result }
{
    let counts = judge(bytes)?;
    refuse(9, first_outgrown(bytes, counts, room.len()))?;
    read_rows(bytes, counts, room);
    Ok(counts)
}

// Rule 13: the areas of a soil type, now and twenty years ago, add up to the same. It is tried over rows as they lie in lent memory, so that one search serves a
// return, whose soil rows are decoded first, and rows that are to be written.
#![tactic(auto)]

ghost use Rattle.std.specs.Prelude.{◌≡◌, ◌+◌, ◌*◌, ◌^◌, ◌≤◌, ◌<◌, length, get_or, take};
ghost use mathlib.Core.List.{flatten};
ghost use Rattle.form.specs.Ruling.{ruling};
ghost use Rattle.form.specs.Records.{filed, filed_rows};
ghost use Rattle.form.specs.Sums.{soil_type, uneven};
ghost use Rattle.form.specs.Verdict.{rows, Formed};
ghost use Rattle.filing.specs.Lists.{cut, rows_in, row_of, filed_lists};
ghost use Rattle.lists.specs.Rules.{Good};
ghost use Rattle.areas.specs.Areas.{soils_in, areas_of, with_row, lower_of, first_uneven, soil_rules, ruled_from};

use decoding::decode_kind;
use form::{Counts, Refusal, first_block};
use lists::{blocks_in, count, length_at, sum};

// The two area sums of a soil type.
#[derive(Clone, Copy)]
pub struct Areas {
    pub now: u64,
    pub then: u64,
}

// The lowest uneven soil type that was found, and the first row of it. While none was: a type above all, and no row.
#[derive(Clone, Copy)]
struct Lowest {
    pub soil: u64,
    pub row: usize,
}

// No number of 32 bits is so high.
const ABOVE_ALL: u64 = 4294967296;

// The numbers of 32 soil rows.
const SOIL_NUMBERS: usize = 288;

// Number i of row j.
fn number_of(rows: &[u32], j: usize, i: usize) -> u64
    requires { (j < rows_in 7 (length rows.now)) × (i < 9) }
    ensures { (result ≡ get_or (row_of 7 rows.now j) i 0) × (result < 2 ^ 32) }
{
    rows[9 * j + i] as u64
}

// A row's areas behind those of the rows before it, if it is of the soil type.
fn add_row(sums: Areas, soil: u64, rows: &[u32], j: usize) -> Areas
    requires { (j < rows_in 7 (length rows.now)) × (sums.now < 2 ^ 40) × (sums.then < 2 ^ 40) }
    ensures value { result ≡ with_row soil sums (row_of 7 rows.now j) }
    ensures result_bound { (result.now ≤ sums.now + 2 ^ 32) × (result.then ≤ sums.then + 2 ^ 32) }
{
    if number_of(rows, j, 2) != soil {
        return sums;
    }
    Areas {
        now: sums.now + number_of(rows, j, 3),
        then: sums.then + number_of(rows, j, 4),
    }
}

// The two area sums of a soil type, over the rows of a list.
fn add_areas(rows: &[u32], soil: u64) -> Areas
    requires { rows_in 7 (length rows.now) ≤ 32 }
    ensures { result ≡ areas_of (soils_in rows.now) soil }
{
    let n = count(7, rows.len());
    let mut sums = Areas { now: 0, then: 0 };
    for j in 0..n {
        sums = add_row(sums, soil, rows, j);
    }
    sums
}

fn is_uneven(rows: &[u32], soil: u64) -> bool
    requires { rows_in 7 (length rows.now) ≤ 32 }
    ensures { result ≡ uneven (soils_in rows.now) soil }
{
    let sums = add_areas(rows, soil);
    sums.now != sums.then
}

// Row j, if it is of a lower type that is uneven; the sums are asked for a lower type alone.
fn lower(best: Lowest, rows: &[u32], j: usize) -> Lowest
    requires { (rows_in 7 (length rows.now) ≤ 32) × (j < rows_in 7 (length rows.now)) }
    ensures { result ≡ lower_of (soils_in rows.now) best (soil_type (row_of 7 rows.now j)) j }
{
    let soil = number_of(rows, j, 2);
    if best.soil <= soil {
        return best;
    }
    if is_uneven(rows, soil) {
        return Lowest { soil, row: j };
    }
    best
}

// The first row of the lowest soil type whose two area sums differ.
fn first_uneven(rows: &[u32]) -> Option<u32>
    requires { rows_in 7 (length rows.now) ≤ 32 }
    ensures { result ≡ first_uneven (soils_in rows.now) }
{
    let n = count(7, rows.len());
    let mut best = Lowest {
        soil: ABOVE_ALL,
        row: n,
    };
    for j in 0..n {
        best = lower(best, rows, j);
    }
    if best.row < n {
        return Some(best.row as u32);
    }
    None
}

// 13, of rows the first of which stands at a place.
fn rule_from(place: usize, rows: &[u32]) -> Result<(), Refusal>
    requires { (place < 2 ^ 24) × (rows_in 7 (length rows.now) ≤ 32) }
    ensures { result ≡ ruled_from place (soils_in rows.now) }
{
    match first_uneven(rows) {
        Some(row) => Err(Refusal {
            number: 13,
            place: place as u32 + row,
        }),
        None => Ok(()),
    }
}

// The soil rows of a return, decoded to the front of the room: how many numbers they are.
fn decode_soils(bytes: &[u8], c: Counts, room: &mut [u32]) -> usize
    requires { Formed bytes.now c × (length room.old ≡ 288) }
    ensures { (result ≤ 288) × (take result room.new ≡ flatten (rows 7 bytes.now)) }
{
    let n = c.soils as usize;
    decode_kind(bytes, 7, 12 * first_block(c, 7), n, room, 0);
    9 * n
}

// Rule 13 of a return whose rows can be read.
pub fn rule_areas(bytes: &[u8], c: Counts) -> Result<(), Refusal>
    requires { Formed bytes.now c }
    ensures { result ≡ ruling (soil_rules (filed bytes.now)) }
{
    if c.soils == 0 {
        return Ok(());
    }
    let mut room = [0u32; SOIL_NUMBERS];
    let end = decode_soils(bytes, c, &mut room);
    rule_from(12 * first_block(c, 7), &room[0..end])
}

// The two area sums of a soil type, of such a return.
pub fn areas_of(bytes: &[u8], c: Counts, soil: u32) -> Areas
    requires { Formed bytes.now c }
    ensures { result ≡ areas_of (rows 7 bytes.now) soil }
{
    let mut room = [0u32; SOIL_NUMBERS];
    let end = decode_soils(bytes, c, &mut room);
    add_areas(&room[0..end], soil as u64)
}

// Rule 13 of lists that 10 has found good: the soil rows lie behind those of the six kinds before.
pub fn rule_unwritten(lengths: &[u32], area: &[u32]) -> Result<(), Refusal>
    requires { Good lengths.now (length area.now) }
    ensures { result ≡ ruling (soil_rules (filed_lists (cut lengths.now area.now))) }
{
    let from = sum(&lengths[0..6]);
    let end = from + length_at(lengths, 6);
    rule_from(12 * blocks_in(&lengths[0..6]), &area[from..end])
}

// The two area sums of a soil type, of such lists.
pub fn areas_in(lengths: &[u32], area: &[u32], soil: u32) -> Areas
    requires { Good lengths.now (length area.now) }
    ensures { result ≡ areas_of (filed_rows (filed_lists (cut lengths.now area.now)) 7) soil }
{
    let from = sum(&lengths[0..6]);
    let end = from + length_at(lengths, 6);
    add_areas(&area[from..end], soil as u64)
}

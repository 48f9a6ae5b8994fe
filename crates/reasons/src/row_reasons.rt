// The values that clash in a record, by its place: numbers 5, 6, 7, 13 and 14.
ghost use Rattle.std.specs.Prelude.{◌≡◌, true, ◌+◌, ◌*◌, ◌^◌, ◌≤◌, ◌<◌, length};
ghost use Rattle.form.specs.Layout.{layout, row_at};
ghost use Rattle.form.specs.Block.{blocks};
ghost use Rattle.form.specs.Records.{filed, bad_id};
ghost use Rattle.reasons.specs.Above.{above_from};
ghost use Rattle.form.specs.Verdict.{counts_of, Formed};
ghost use Rattle.reasons.specs.Reasons.{row_named, id_reason, limit_reason, fractions_reason, soil_reason, trees_reason};

use crate::{Reason, Row};
use areas::areas_of;
use form::layout::{field, numbers};
use form::{byte_at, four_at, number_at, row_start, two_at};
use judge::count_rows;

// A field above its limit: its number in the row, what it is, and what it may be.
#[derive(Clone, Copy)]
pub struct Above {
    pub field: u32,
    pub value: u32,
    pub limit: u32,
}

// The row at a place, as every number of a row names it.
fn row_named(bytes: &[u8], place: u32) -> Row
    requires { place < 12 * blocks bytes.now }
    ensures { result ≡ row_named bytes.now place }
{
    let kind = byte_at(bytes, 512 * (place / 12) as usize);
    let id = four_at(bytes, row_start(0, place as usize));
    Row { place, kind, id }
}

// 5: the id before stands one place lower.
pub fn id_below(bytes: &[u8], place: u32) -> Reason
    requires { (place < 12 * blocks bytes.now) × (bad_id (filed bytes.now) place ≡ true) }
    ensures { result ≡ id_reason bytes.now place }
{
    let row = row_named(bytes, place);
    let before = four_at(bytes, row_start(0, place as usize - 1));
    Reason::IdBelow { row, before }
}

// The first field above its limit in the record that starts at a byte; a record without one is not asked about.
fn first_above(bytes: &[u8], kind: usize, at: usize) -> Above
    requires { at + 40 ≤ length bytes.now }
    ensures { result ≡ above_from 0 (layout kind) (row_at (layout kind) bytes.now at) }
{
    let n = numbers(kind);
    let mut k: usize = 0;
    for i in 0..n {
        let f = field(kind, i);
        k += f.zeros;
        let value = number_at(bytes, at + k, f.width);
        if f.limit < value {
            return Above {
                field: i as u32,
                value,
                limit: f.limit,
            };
        }
        k += f.width;
    }
    Above {
        field: n as u32,
        value: 0,
        limit: 0,
    }
}

// 6.
pub fn field_above(bytes: &[u8], place: u32) -> Reason
    requires { place < 12 * blocks bytes.now }
    ensures { result ≡ limit_reason bytes.now place }
{
    let row = row_named(bytes, place);
    let above = first_above(bytes, row.kind as usize, row_start(0, place as usize));
    Reason::FieldAbove {
        row,
        field: above.field,
        value: above.value,
        limit: above.limit,
    }
}

// 7: of a conversion row.
pub fn fractions_above(bytes: &[u8], place: u32) -> Reason
    requires { (place < 12 * blocks bytes.now) × ((filed bytes.now).kind place ≡ 1) }
    ensures { result ≡ fractions_reason bytes.now place }
{
    let row = row_named(bytes, place);
    let at = row_start(0, place as usize);
    let onsite = two_at(bytes, at + 12);
    let offsite = two_at(bytes, at + 18);
    let decay = two_at(bytes, at + 32);
    Reason::FractionsAbove {
        row,
        onsite,
        offsite,
        decay,
        sum: onsite + offsite + decay,
    }
}

// 13: a row of mineral soil, its soil type, and the two area sums of the type over the whole return.
pub fn soil_uneven(bytes: &[u8], place: u32) -> Reason
    requires formed { Formed bytes.now (counts_of bytes.now) }
    requires place_bound { (place < 12 * blocks bytes.now) × ((filed bytes.now).kind place ≡ 7) }
    ensures { result ≡ soil_reason bytes.now place }
{
    let row = row_named(bytes, place);
    let soil = two_at(bytes, row_start(0, place as usize) + 6);
    let sums = areas_of(bytes, count_rows(bytes), soil);
    Reason::SoilUneven {
        row,
        soil,
        now: sums.now,
        then: sums.then,
    }
}

// 14: a stock row and its unit code; the edition is the whole return's.
pub fn scattered_trees(bytes: &[u8], place: u32) -> Reason
    requires { (place < 12 * blocks bytes.now) × ((filed bytes.now).kind place ≡ 2) }
    ensures { result ≡ trees_reason bytes.now place }
{
    let row = row_named(bytes, place);
    let code = byte_at(bytes, row_start(0, place as usize) + 4);
    let edition = two_at(bytes, 6);
    Reason::ScatteredTrees { row, code, edition }
}

// The values that clash in a row, by the number: of the row as it is named, and its numbers.
ghost use Rattle.std.specs.Prelude.{◌≡◌, true, ◌+◌, ◌-◌, ◌≤◌, ◌<◌, length};
ghost use Rattle.form.specs.Layout.{layout, numbers_of};
ghost use Rattle.form.specs.Records.{filed_rows, id_of, bad_id};
ghost use Rattle.form.specs.Sums.{soil_type};
ghost use Rattle.filing.specs.Lists.{cut, filed_lists};
ghost use Rattle.lists.specs.Rules.{Good};
ghost use Rattle.phrases.specs.Lines.{WrittenIn, lines_text};
ghost use Rattle.reasons.specs.declared.Reason.TheVariants.{IdBelow};
ghost use Rattle.reasons.specs.Above.{above_from};
ghost use Rattle.reasons.specs.Reasons.{limit_by, fractions_by, soil_by, trees_by};
ghost use Rattle.naming.specs.RowLines.{row_lines};

use crate::find_row;
use areas::areas_in;
use form::layout::field;
use naming::{put_fractions, put_named};
use reasons::{Reason, Row};

// 5: the id before is that of the row one place lower.
pub fn id_below(row: Row, lengths: &[u32], area: &[u32]) -> Reason
    requires good { Good lengths.now (length area.now) }
    requires place_value { bad_id (filed_lists (cut lengths.now area.now)) row.place ≡ true }
    ensures { result ≡ IdBelow row (id_of ((filed_lists (cut lengths.now area.now)).row (row.place - 1))) }
{
    let before = find_row(lengths, area, row.place - 1);
    let from = before.from;
    Reason::IdBelow {
        row,
        before: area[from],
    }
}

// 6: the first field above its limit; a row without one is not asked about.
pub fn field_above(row: Row, numbers: &[u32]) -> Reason
    requires { (length numbers.now ≡ numbers_of row.kind) × (length numbers.now ≤ 16) }
    ensures { result ≡ limit_by row (above_from 0 (layout row.kind) numbers.now) }
{
    for i in 0..numbers.len() {
        let limit = field(row.kind as usize, i).limit;
        let value = numbers[i];
        if limit < value {
            return Reason::FieldAbove {
                row,
                field: i as u32,
                value,
                limit,
            };
        }
    }
    Reason::FieldAbove {
        row,
        field: numbers.len() as u32,
        value: 0,
        limit: 0,
    }
}

fn wide(x: u32) -> u64
    ensures { (result ≡ x) × (result < 4294967296) }
{
    x as u64
}

// 7, of a conversion row. Its fractions are any numbers of 32 bits here, so their sum takes 64.
pub fn put_fractions_above(row: Row, numbers: &[u32], out: &mut [u8], at: usize) -> usize
    requires { (13 < length numbers.now) × (at + 230 ≤ length out.old) }
    ensures { WrittenIn 230 (lines_text (row_lines (fractions_by row numbers.now))) out.old out.new at result }
{
    let onsite = numbers[4];
    let offsite = numbers[7];
    let decay = numbers[13];
    let sum = wide(onsite) + wide(offsite) + wide(decay);
    let next = put_named(row, out, at);
    put_fractions(onsite, offsite, decay, sum, out, next)
}

// 13: a row of mineral soil, its soil type, and the two area sums of the type over all rows.
pub fn soil_uneven(row: Row, numbers: &[u32], lengths: &[u32], area: &[u32]) -> Reason
    requires good { Good lengths.now (length area.now) }
    requires in_bounds { 2 < length numbers.now }
    ensures { result ≡ soil_by row (filed_rows (filed_lists (cut lengths.now area.now)) 7) (soil_type numbers.now) }
{
    let soil = numbers[2];
    let sums = areas_in(lengths, area, soil);
    Reason::SoilUneven {
        row,
        soil,
        now: sums.now,
        then: sums.then,
    }
}

// 14: a stock row and its unit code; the edition is that of the return which is to be written.
pub fn scattered_trees(row: Row, numbers: &[u32], edition: u32) -> Reason
    requires { 1 < length numbers.now }
    ensures { result ≡ trees_by row numbers.now edition }
{
    let code = numbers[1];
    Reason::ScatteredTrees { row, code, edition }
}

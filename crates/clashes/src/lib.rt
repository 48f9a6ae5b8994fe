// Why rows that are to be written were refused: the lines of the values that clash, worked out from the rows in lent memory.
#![tactic(auto)]

mod values;

ghost use Rattle.std.specs.Prelude.{◌≡◌, true, ◌+◌, ◌≤◌, length};
ghost use Rattle.form.specs.Ruling.{ruling};
ghost use Rattle.form.specs.Sums.{filed_rules};
ghost use Rattle.filing.specs.Lists.{cut, filed_lists};
ghost use Rattle.lists.specs.Rules.{Good};
ghost use Rattle.phrases.specs.Lines.{WrittenIn, lines_text};
ghost use Rattle.form.specs.Refusals.{Refused};
ghost use Rattle.wording.specs.Wording.{value_lines};
ghost use Rattle.clashes.specs.Stands.{Stands};
ghost use Rattle.clashes.specs.Clashes.{Here, wood_clash, clash_lines};

use crate::values::{field_above, id_below, put_fractions_above, scattered_trees, soil_uneven};
use balance::unwritten::weigh_lists;
use form::KINDS;
use form::layout::numbers;
use lists::{blocks_of, count, length_at};
use naming::put_row;
use phrases::put_lines;
use phrases::text::whole;
use reasons::Row;

// The row at a place: its kind, where its numbers begin in the area, and how many rows of all kinds stand before it.
#[derive(Clone, Copy)]
pub struct Whereabouts {
    pub kind: usize,
    pub from: usize,
    pub index: usize,
}

// Which row stands at a place, of lists that 10 has found good. The lengths alone say it; the area is there for the contract to name the row's numbers.
pub fn find_row(lengths: &[u32], area: &[u32], place: u32) -> Whereabouts
    requires good { Good lengths.now (length area.now) }
    requires place_value { (filed_lists (cut lengths.now area.now)).used place ≡ true }
    ensures { Stands lengths.now area.now place result }
{
    let p = place as usize;
    let mut from: usize = 0;
    let mut start: usize = 0;
    let mut before: usize = 0;
    for k in 0..KINDS {
        let n = length_at(lengths, k);
        let next = start + 12 * blocks_of(k + 1, n);
        if p < next {
            let j = p - start;
            return Whereabouts {
                kind: k + 1,
                from: from + numbers(k + 1) * j,
                index: before + j,
            };
        }
        before += count(k + 1, n);
        start = next;
        from += n;
    }
    // Never: a place behind the last kind's is not used.
    Whereabouts {
        kind: 0,
        from: 0,
        index: 0,
    }
}

// 12. A row's numbers are taken as they come, so each mass takes two words.
fn put_wood(lengths: &[u32], area: &[u32], out: &mut [u8], at: usize) -> usize
    requires good { Good lengths.now (length area.now) }
    requires at_in_bounds { at + 250 ≤ length out.old }
    ensures { WrittenIn 250 (lines_text (value_lines (wood_clash (filed_lists (cut lengths.now area.now))))) out.old out.new at result }
{
    let wood = weigh_lists(lengths, area);
    let values = [whole(wood.used.0), whole(wood.cleared.0)];
    put_lines(b"used cleared ", &values, out, at)
}

// By the number, of the row that is refused and its numbers. A new number is a new line.
fn put_of_row(
    edition: u32,
    lengths: &[u32],
    area: &[u32],
    number: u8,
    row: Row,
    numbers: &[u32],
    out: &mut [u8],
    at: usize,
) -> usize
    requires good { Good lengths.now (length area.now) }
    requires area_value { ruling (filed_rules edition (filed_lists (cut lengths.now area.now))) ≡ Refused number row.place }
    requires fact { (number ≡ 12 → ⊥) × Here (filed_lists (cut lengths.now area.now)) row numbers.now }
    requires at_in_bounds { at + 250 ≤ length out.old }
    ensures { WrittenIn 250 (lines_text (clash_lines edition (filed_lists (cut lengths.now area.now)) number row.place)) out.old out.new at result }
{
    match number {
        5 => put_row(id_below(row, lengths, area), out, at),
        6 => put_row(field_above(row, numbers), out, at),
        7 => put_fractions_above(row, numbers, out, at),
        14 => put_row(scattered_trees(row, numbers, edition), out, at),
        _ => put_row(soil_uneven(row, numbers, lengths, area), out, at),
    }
}

// The lines of a refusal by 5, 6, 7, 12, 13 or 14, of lists that 10 has found good.
pub fn put_clash(
    edition: u32,
    lengths: &[u32],
    area: &[u32],
    number: u8,
    place: u32,
    out: &mut [u8],
    at: usize,
) -> usize
    requires good { Good lengths.now (length area.now) }
    requires area_value { ruling (filed_rules edition (filed_lists (cut lengths.now area.now))) ≡ Refused number place }
    requires at_in_bounds { at + 250 ≤ length out.old }
    ensures { WrittenIn 250 (lines_text (clash_lines edition (filed_lists (cut lengths.now area.now)) number place)) out.old out.new at result }
{
    if number == 12 {
        return put_wood(lengths, area, out, at);
    }
    let w = find_row(lengths, area, place);
    let from = w.from;
    let end = from + numbers(w.kind);
    let row = Row {
        place,
        kind: w.kind as u32,
        id: area[from],
    };
    put_of_row(
        edition,
        lengths,
        area,
        number,
        row,
        &area[from..end],
        out,
        at,
    )
}

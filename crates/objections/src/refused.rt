// Rows that writing refuses, or how many bytes their return has.
ghost use Rattle.std.specs.Prelude.{◌≡◌, true, ◌++◌, ◌+◌, ◌*◌, ◌≤◌, ◌<◌, length, pos};
ghost use Rattle.form.specs.Layout.{kinds};
ghost use Rattle.form.specs.Ruling.{ruling};
ghost use Rattle.form.specs.Records.{record_rules};
ghost use Rattle.form.specs.Sums.{filed_rules};
ghost use Rattle.form.specs.Refusals.{Clean, Refused};
ghost use Rattle.filing.specs.Lists.{cut, filed_lists};
ghost use Rattle.lists.specs.Rules.{Good, blocks_from, list_rules};
ghost use Rattle.phrases.specs.Ascii.{codes};
ghost use Rattle.phrases.specs.Lines.{WrittenIn, line, lines_text, refused_line};
ghost use Rattle.objections.specs.Objections.{found_lines, list_lines, line_lines, text_by, why_room};

use balance::unwritten::rule_lists;
use clashes::{find_row, put_clash};
use lists::{blocks_in, count, first_bad_list, length_at, rule_records};
use naming::put_kind_name;
use phrases::text::{put, put_byte};
use phrases::{put_one, put_refused};
use texts::line_of_row;

// 10, of a kind: how many rows of it were found.
fn put_found(lengths: &[u32], kind: u32, out: &mut [u8], at: usize) -> usize
    requires { (0 < kind) × (kind ≤ kinds) × (length lengths.now ≡ kinds) × (at + 50 ≤ length out.old) }
    ensures { WrittenIn 50 (lines_text (found_lines lengths.now kind)) out.old out.new at result }
{
    let k = kind as usize;
    let rows = count(k, length_at(lengths, k - 1));
    let a = put(b"kind_name ", out, at);
    let b = put_kind_name(kind, out, a);
    let c = put_byte(10, out, b);
    put_one(b"rows ", rows as u64, out, c)
}

// 10: the edition, or a kind.
fn put_list(edition: u32, lengths: &[u32], place: u32, out: &mut [u8], at: usize) -> usize
    requires { (place ≤ kinds) × (length lengths.now ≡ kinds) × (at + 50 ≤ length out.old) }
    ensures { WrittenIn 50 (lines_text (list_lines edition lengths.now place)) out.old out.new at result }
{
    if place == 0 {
        return put_one(b"edition ", edition as u64, out, at);
    }
    put_found(lengths, place, out, at)
}

// Lists that 10 refuses.
fn put_bad_list(edition: u32, lengths: &[u32], place: u32, out: &mut [u8], at: usize) -> usize
    requires { (place ≤ kinds) × (length lengths.now ≡ kinds) × (at + 80 ≤ length out.old) }
    ensures { WrittenIn 80 (refused_line 10 place ++ lines_text (list_lines edition lengths.now place)) out.old out.new at result }
{
    let next = put_refused(10, place, out, at);
    put_list(edition, lengths, place, out, next)
}

// The line of the row that is refused; 12 is of no row.
fn put_row_line(
    text: &[u8],
    lengths: &[u32],
    area: &[u32],
    number: u8,
    place: u32,
    out: &mut [u8],
    at: usize,
) -> usize
    requires good { Good lengths.now (length area.now) }
    requires place_value { (number ≡ 12 → ⊥) → (filed_lists (cut lengths.now area.now)).used place ≡ true }
    requires at_in_bounds { at + 30 ≤ length out.old }
    ensures { WrittenIn 30 (lines_text (line_lines text.now lengths.now number place)) out.old out.new at result }
{
    if number == 12 {
        return at;
    }
    let row = find_row(lengths, area, place);
    put_one(b"line ", line_of_row(text, row.index) as u64, out, at)
}

// Rows that a rule behind 10 refuses.
fn put_refusal(
    text: &[u8],
    edition: u32,
    lengths: &[u32],
    area: &[u32],
    number: u8,
    place: u32,
    out: &mut [u8],
    at: usize,
) -> usize
    requires good { Good lengths.now (length area.now) }
    requires area_value { ruling (filed_rules edition (filed_lists (cut lengths.now area.now))) ≡ Refused number place }
    requires at_in_bounds { at + 310 ≤ length out.old }
    ensures { WrittenIn 310 (text_by text.now edition lengths.now area.now (Refused number place)) out.old out.new at result }
{
    let a = put_refused(number, place, out, at);
    let b = put_clash(edition, lengths, area, number, place, out, a);
    put_row_line(text, lengths, area, number, place, out, b)
}

// Rows that can be written, a block of 512 bytes for every twelve of a kind.
fn put_packed(lengths: &[u32], area: &[u32], out: &mut [u8], at: usize) -> usize
    requires good { Good lengths.now (length area.now) }
    requires at_in_bounds { at + 30 ≤ length out.old }
    ensures { WrittenIn 30 (line (codes "packed") (pos (512 * blocks_from 1 lengths.now))) out.old out.new at result }
{
    let n = blocks_in(lengths);
    put_one(b"packed ", (512 * n) as u64, out, at)
}

// Rows that keep the rules of one row: then what they add up to.
fn put_each(
    text: &[u8],
    edition: u32,
    lengths: &[u32],
    area: &[u32],
    out: &mut [u8],
    at: usize,
) -> usize
    requires good { Good lengths.now (length area.now) }
    requires area_value { ruling (record_rules edition (filed_lists (cut lengths.now area.now))) ≡ Clean }
    requires at_in_bounds { at + 310 ≤ length out.old }
    ensures { WrittenIn 310 (text_by text.now edition lengths.now area.now (ruling (filed_rules edition (filed_lists (cut lengths.now area.now))))) out.old out.new at result }
{
    match rule_lists(lengths, area) {
        Err(r) => put_refusal(text, edition, lengths, area, r.number, r.place, out, at),
        Ok(()) => put_packed(lengths, area, out, at),
    }
}

// Lists of whole rows.
fn put_whole(
    text: &[u8],
    edition: u32,
    lengths: &[u32],
    area: &[u32],
    out: &mut [u8],
    at: usize,
) -> usize
    requires good { Good lengths.now (length area.now) }
    requires at_in_bounds { at + 310 ≤ length out.old }
    ensures { WrittenIn 310 (text_by text.now edition lengths.now area.now (ruling (filed_rules edition (filed_lists (cut lengths.now area.now))))) out.old out.new at result }
{
    match rule_records(edition, lengths, area) {
        Err(r) => put_refusal(text, edition, lengths, area, r.number, r.place, out, at),
        Ok(()) => put_each(text, edition, lengths, area, out, at),
    }
}

// Rows of any lengths, in the order in which writing tries its rules.
pub fn put_rows(
    text: &[u8],
    edition: u32,
    lengths: &[u32],
    area: &[u32],
    out: &mut [u8],
    at: usize,
) -> usize
    requires { (length lengths.now ≡ kinds) × (at + why_room ≤ length out.old) }
    ensures { WrittenIn why_room (text_by text.now edition lengths.now area.now (ruling (list_rules edition lengths.now area.now))) out.old out.new at result }
{
    match first_bad_list(edition, lengths, area.len()) {
        Some(place) => put_bad_list(edition, lengths, place, out, at),
        None => put_whole(text, edition, lengths, area, out, at),
    }
}

// A text as an edition and rows in lent room, or its first fault.
#![tactic(auto)]

ghost use Rattle.std.specs.Prelude.{◌≡◌, [], ◌∷◌, suc, ◌+◌, ◌-◌, ◌≤◌, ◌<◌, length, get_or, replicate, drop};
ghost use Rattle.std.proofs.lemmas.List.Edits.{sets};
ghost use Rattle.form.specs.Layout.{kinds, numbers_of};
ghost use Rattle.cells.specs.Lines.{lines_of, text_lines};
ghost use Rattle.cells.specs.Cells.{cell_at, same_word};
ghost use Rattle.columns.specs.Columns.{kind_or_none};
ghost use Rattle.rowtext.specs.Said.{row_said};
ghost use Rattle.heads.specs.Heads.{edition_word};
ghost use Rattle.texts.specs.Texts.{nothing, kind_in, count_of, checked_row, checked_kind, checked, rows_from, longest_text, text_read, row_line_at, row_line};
ghost use Rattle.texts.specs.Steps.{head_line, first_as, place_as, rows_behind, row_line_behind, FirstIn, FirstOf, line_step, kept_as, counted_as, taken_as, UsedIn, Stored, area_room, Ready, RoomFor};
ghost use Rattle.texts.specs.Steps.{entered_as, EnteredIn};

use cells::{found, next_field, next_line, same_word, text_start};
use columns::kind_named;
use form::layout::numbers;
use heads::{Fault, Head, TextFault, head_of, is_passed};
use rowtext::read_row;

// Room that is always enough for the rows of a text: 32 of each kind.
pub const AREA_ROOM: usize = 2336;

// The rows so far, beside the lent lengths and area: the kind of the last row, how many rows of it there are, and how many numbers of the area are used.
#[derive(Clone, Copy, PartialEq, Eq, Debug)]
pub struct Kept {
    pub kind: usize,
    pub count: usize,
    pub used: usize,
}

// The first line that counts: its number, where it stands, and where the next begins.
#[derive(Clone, Copy, PartialEq, Eq, Debug)]
pub struct First {
    pub number: u32,
    pub from: usize,
    pub to: usize,
    pub next: usize,
}

// A text without a fault: its edition, and how many numbers of the area its rows use.
#[derive(Clone, Copy, PartialEq, Eq, Debug)]
pub struct Entered {
    pub edition: u32,
    pub used: usize,
}

// Whether the first field is the word `edition`.
fn names_edition(line: &[u8], sep: u8) -> bool
    ensures { result ≡ same_word edition_word (cell_at sep 0 line.now) }
{
    let name = next_field(line, 0, sep);
    let from = name.from;
    let to = name.to;
    same_word(b"edition", &line[from..to])
}

// The kind that the first field names.
fn kind_in(line: &[u8], sep: u8) -> Option<usize>
    ensures { (result ≡ kind_or_none (kind_in sep line.now)) × (kind_in sep line.now ≤ kinds) }
{
    let name = next_field(line, 0, sep);
    let from = name.from;
    let to = name.to;
    kind_named(&line[from..to])
}

// How many rows of a kind there are before the next line.
fn count_of(kept: Kept, kind: usize) -> usize
    ensures { result ≡ count_of (counted_as kept) kind }
{
    if kind == kept.kind {
        return kept.count;
    }
    0
}

// The fields of a row, from left to right.
fn check_row(
    line: &[u8],
    sep: u8,
    kind: usize,
    n: u32,
    area: &mut [u32],
    used: usize,
) -> Result<usize, TextFault>
    requires { (kind ≤ kinds) × (used + numbers_of kind ≤ length area.old) }
    ensures value { result ≡ checked_row n kind (row_said sep kind line.now) }
    ensures stored { Stored sep used line.now area.old area.new result }
{
    match read_row(line, sep, kind, area, used) {
        Ok(()) => Ok(kind),
        Err(row) => {
            let fault = Fault::Cell {
                kind: kind as u32,
                field: row.field,
                fault: row.fault,
            };
            Err(TextFault { line: n, fault })
        }
    }
}

// A line that names a kind: the order, the rows, how many fields, and the fields.
fn check_kind(
    line: &[u8],
    sep: u8,
    kind: usize,
    n: u32,
    kept: Kept,
    area: &mut [u32],
) -> Result<usize, TextFault>
    requires { (0 < kind) × (kind ≤ kinds) × RoomFor kept area.old × (length line.now < 4294967296) }
    ensures value { result ≡ checked_kind sep kind (counted_as kept) n line.now }
    ensures stored { Stored sep kept.used line.now area.old area.new result }
{
    if kind < kept.kind {
        return Err(TextFault {
            line: n,
            fault: Fault::Order,
        });
    }
    if 32 <= count_of(kept, kind) {
        return Err(TextFault {
            line: n,
            fault: Fault::Rows,
        });
    }
    let fields = found(line, sep);
    let due = numbers(kind);
    if fields != due {
        let fault = Fault::Fields {
            due: due as u32,
            found: fields as u32,
        };
        return Err(TextFault { line: n, fault });
    }
    check_row(line, sep, kind, n, area, kept.used)
}

// Line number n, which counts.
fn check_line(
    line: &[u8],
    sep: u8,
    n: u32,
    kept: Kept,
    area: &mut [u32],
) -> Result<usize, TextFault>
    requires { RoomFor kept area.old × (length line.now < 4294967296) }
    ensures value { result ≡ checked sep (counted_as kept) n line.now }
    ensures stored { Stored sep kept.used line.now area.old area.new result }
{
    if names_edition(line, sep) {
        return Err(TextFault {
            line: n,
            fault: Fault::Edition,
        });
    }
    match kind_in(line, sep) {
        Some(kind) => check_kind(line, sep, kind, n, kept, area),
        None => Err(TextFault {
            line: n,
            fault: Fault::Kind,
        }),
    }
}

// One row more of a kind, whose numbers stand behind the used ones.
fn take_row(kept: Kept, kind: usize, lengths: &mut [u32]) -> Kept
    requires kind_nonzero { (0 < kind) × (kind ≤ length lengths.old) × (get_or lengths.old (kind - 1) 0 ≤ 65536) }
    requires used_bound { (kept.used ≤ 65536) × (count_of (counted_as kept) kind < 32) }
    ensures value { result ≡ record { kind = kind; count = suc (count_of (counted_as kept) kind); used = kept.used + numbers_of kind } }
    ensures lengths_after { lengths.new ≡ sets lengths.old (kind - 1) ((get_or lengths.old (kind - 1) 0 + numbers_of kind) ∷ []) }
{
    let more = numbers(kind);
    let at = kind - 1;
    lengths[at] = lengths[at] + more as u32;
    let count = count_of(kept, kind) + 1;
    Kept {
        kind,
        count,
        used: kept.used + more,
    }
}

// Line number n: passed over, at fault, or a row more.
fn take_line(
    line: &[u8],
    sep: u8,
    n: u32,
    kept: Kept,
    lengths: &mut [u32],
    area: &mut [u32],
) -> Result<Kept, TextFault>
    requires { Ready kept lengths.old area.old × (length line.now < 4294967296) }
    ensures area_after { taken_as result lengths.new area.new ≡ line_step sep (kept_as kept lengths.old area.old) n line.now }
    ensures used_in { UsedIn result area.new × (length lengths.new ≡ length lengths.old) × (length area.new ≡ length area.old) }
{
    if is_passed(line, sep) {
        return Ok(kept);
    }
    let kind = check_line(line, sep, n, kept, area)?;
    Ok(take_row(kept, kind, lengths))
}

// The lines from a place on, of which n are behind us.
fn read_rows(
    text: &[u8],
    at: usize,
    n: u32,
    head: Head,
    lengths: &mut [u32],
    area: &mut [u32],
) -> Result<Entered, TextFault>
    requires { (n ≤ at) × (at ≤ length text.now) × (length text.now ≤ longest_text) × (lengths.old ≡ replicate kinds 0) × (area_room ≤ length area.old) }
    ensures area_after { entered_as result lengths.new area.new ≡ rows_from head.edition head.separator n nothing (lines_of (drop at text.now)) }
    ensures entered_in { EnteredIn result lengths.new area.new }
{
    let mut kept = Kept {
        kind: 0,
        count: 0,
        used: 0,
    };
    let mut from = at;
    let mut number = n;
    // no plainer by `for`: a turn steps on by a line, whose length only the turn finds
    while from < text.len() {
        let line = next_line(text, from);
        let start = line.from;
        let end = line.to;
        number += 1;
        kept = take_line(
            &text[start..end],
            head.separator,
            number,
            kept,
            lengths,
            area,
        )?;
        from = line.next;
    }
    Ok(Entered {
        edition: head.edition,
        used: kept.used,
    })
}

// The first line that counts. Before the separator is known a tab is a blank, as where a comma separates.
fn first_line(text: &[u8]) -> Option<First>
    requires { length text.now ≤ longest_text }
    ensures { (first_as text.now result ≡ head_line 0 (text_lines text.now)) × FirstOf text.now result }
{
    let mut from = text_start(text);
    let mut number: u32 = 0;
    // no plainer by `for`, as in read_rows
    while from < text.len() {
        let line = next_line(text, from);
        let start = line.from;
        let end = line.to;
        number += 1;
        if !is_passed(&text[start..end], 44) {
            return Some(First {
                number,
                from: start,
                to: end,
                next: line.next,
            });
        }
        from = line.next;
    }
    None
}

// By what the first line that counts says.
fn read_behind(
    text: &[u8],
    first: First,
    lengths: &mut [u32],
    area: &mut [u32],
) -> Result<Entered, TextFault>
    requires { FirstIn text.now first × (length text.now ≤ longest_text) × (lengths.old ≡ replicate kinds 0) × (area_room ≤ length area.old) }
    ensures area_after { entered_as result lengths.new area.new ≡ rows_behind (place_as text.now first) }
    ensures entered_in { EnteredIn result lengths.new area.new }
{
    let from = first.from;
    let to = first.to;
    let head = head_of(first.number, &text[from..to])?;
    read_rows(text, first.next, first.number, head, lengths, area)
}

// Any text: its rows, kind after kind, at the front of the area, and the length of each kind's part; or its first fault.
pub fn enter(text: &[u8], lengths: &mut [u32], area: &mut [u32]) -> Result<Entered, TextFault>
    requires { (lengths.old ≡ replicate kinds 0) × (area_room ≤ length area.old) }
    ensures area_after { entered_as result lengths.new area.new ≡ text_read text.now }
    ensures entered_in { EnteredIn result lengths.new area.new }
{
    if 131072 < text.len() {
        return Err(TextFault {
            line: 0,
            fault: Fault::Long,
        });
    }
    match first_line(text) {
        Some(first) => read_behind(text, first, lengths, area),
        None => Err(TextFault {
            line: 0,
            fault: Fault::Edition,
        }),
    }
}

// The line in which a row stands, of the lines from a place on, of which n are behind us; 0 where there is none.
fn row_line(text: &[u8], at: usize, n: u32, sep: u8, index: usize) -> u32
    requires { (n ≤ at) × (at ≤ length text.now) × (length text.now ≤ longest_text) }
    ensures { result ≡ row_line_at sep index n (lines_of (drop at text.now)) }
{
    let mut from = at;
    let mut number = n;
    let mut left = index;
    // no plainer by `for`, as in read_rows
    while from < text.len() {
        let line = next_line(text, from);
        let start = line.from;
        let end = line.to;
        number += 1;
        if !is_passed(&text[start..end], sep) {
            if left == 0 {
                return number;
            }
            left -= 1;
        }
        from = line.next;
    }
    0
}

// By what the first line that counts says.
fn row_line_behind(text: &[u8], first: First, index: usize) -> u32
    requires { FirstIn text.now first × (length text.now ≤ longest_text) }
    ensures { result ≡ row_line_behind index (place_as text.now first) }
{
    let from = first.from;
    let to = first.to;
    match head_of(first.number, &text[from..to]) {
        Ok(head) => row_line(text, first.next, first.number, head.separator, index),
        Err(_) => 0,
    }
}

// The line in which a row of a text stands, counted from 0 over all kinds; 0 where there is none, since the theorem right_line of promises/Texts counts by
// this number. It goes over the text again: only a refusal asks for it.
pub fn line_of_row(text: &[u8], index: usize) -> u32
    ensures { result ≡ row_line index text.now }
{
    if 131072 < text.len() {
        return 0;
    }
    match first_line(text) {
        Some(first) => row_line_behind(text, first, index),
        None => 0,
    }
}

// The lines of a refused row: which row it is, and the values that clash, with the names of the kinds and of their fields.
#![tactic(auto)]

ghost use Rattle.std.specs.Prelude.{◌+◌, ◌≤◌, length};
ghost use Rattle.phrases.specs.Lines.{WrittenIn, lines_text};
ghost use Rattle.naming.specs.Names.{field_name, kind_name};
ghost use Rattle.naming.specs.RowLines.{place_lines, named_lines, limit_lines, fractions_lines, soil_lines, row_lines};

use phrases::text::{plain, put, put_byte};
use phrases::{put_lines, put_one, put_two, put_word};
use reasons::{Reason, Row};

// The names of each kind's fields, in the row's order.
const CONVERSION: [&[u8]; 15] = [
    b"id",
    b"area",
    b"before",
    b"after",
    b"on-site_fraction",
    b"on-site_oxidised_fraction",
    b"on-site_carbon_fraction",
    b"off-site_fraction",
    b"off-site_oxidised_fraction",
    b"off-site_carbon_fraction",
    b"ten-year_area",
    b"ten-year_before",
    b"ten-year_after",
    b"decay_fraction",
    b"decay_carbon_fraction",
];

const STOCK: [&[u8]; 5] = [b"id", b"unit_code", b"rate", b"amount", b"carbon_fraction"];

const HARVEST: [&[u8]; 5] = [b"id", b"F", b"G", b"I", b"J"];

const PARAMETERS: [&[u8]; 6] = [b"N", b"CH4", b"CO", b"N/C", b"N2O", b"NOx"];

const ABANDONED: [&[u8]; 7] = [
    b"id",
    b"area",
    b"growth_rate",
    b"carbon_fraction",
    b"longer_area",
    b"longer_growth_rate",
    b"longer_carbon_fraction",
];

const SAVANNA: [&[u8]; 14] = [
    b"id",
    b"area",
    b"density",
    b"fraction_really_burned",
    b"live_fraction",
    b"live_oxidised_fraction",
    b"live_carbon_fraction",
    b"dead_oxidised_fraction",
    b"dead_carbon_fraction",
    b"N/C",
    b"CH4",
    b"CO",
    b"N2O",
    b"NOx",
];

const SOIL: [&[u8]; 9] = [
    b"id",
    b"land_system",
    b"soil_type",
    b"area_now",
    b"area_then",
    b"native",
    b"base",
    b"tillage",
    b"input",
];

const CROP: [&[u8]; 12] = [
    b"id",
    b"production",
    b"residue_ratio",
    b"dry_matter",
    b"burned_fraction",
    b"oxidised_fraction",
    b"carbon_fraction",
    b"N/C",
    b"CH4",
    b"CO",
    b"N2O",
    b"NOx",
];

// The kinds' names by their numbers; 0 is no kind.
const KINDS: [&[u8]; 9] = [
    b"",
    b"conversion",
    b"stock",
    b"harvest",
    b"parameters",
    b"abandoned",
    b"savanna",
    b"soil",
    b"crop",
];

// The name of a field, by its kind and its number. A new kind is a new line.
pub fn put_field_name(kind: u32, i: usize, out: &mut [u8], at: usize) -> usize
    requires { at + 30 ≤ length out.old }
    ensures { WrittenIn 30 (field_name kind i) out.old out.new at result }
{
    match kind {
        1 => put_word(&CONVERSION, i, out, at),
        2 => put_word(&STOCK, i, out, at),
        3 => put_word(&HARVEST, i, out, at),
        4 => put_word(&PARAMETERS, i, out, at),
        5 => put_word(&ABANDONED, i, out, at),
        6 => put_word(&SAVANNA, i, out, at),
        7 => put_word(&SOIL, i, out, at),
        8 => put_word(&CROP, i, out, at),
        _ => at,
    }
}

// The name of a kind. A new kind is a new word.
pub fn put_kind_name(kind: u32, out: &mut [u8], at: usize) -> usize
    requires { at + 10 ≤ length out.old }
    ensures { WrittenIn 10 (kind_name kind) out.old out.new at result }
{
    put_word(&KINDS, kind as usize, out, at)
}

// Where a row stands: its block, its position there and its kind.
fn put_place(row: Row, out: &mut [u8], at: usize) -> usize
    requires { at + 80 ≤ length out.old }
    ensures { WrittenIn 80 (lines_text (place_lines row)) out.old out.new at result }
{
    let a = put_two(b"block row ", row.place / 12, row.place % 12, out, at);
    let b = put(b"kind_name ", out, a);
    let c = put_kind_name(row.kind, out, b);
    put_byte(10, out, c)
}

// Which row it is: where it stands, and its id. The parameters have none.
pub fn put_named(row: Row, out: &mut [u8], at: usize) -> usize
    requires { at + 110 ≤ length out.old }
    ensures { WrittenIn 110 (lines_text (named_lines row)) out.old out.new at result }
{
    let next = put_place(row, out, at);
    if row.kind == 4 {
        return next;
    }
    put_one(b"id ", row.id as u64, out, next)
}

// The field, its name, what it is and what it may be.
fn put_limit(kind: u32, field: u32, value: u32, limit: u32, out: &mut [u8], at: usize) -> usize
    requires { at + 130 ≤ length out.old }
    ensures { WrittenIn 130 (lines_text (limit_lines kind field value limit)) out.old out.new at result }
{
    let a = put_one(b"field ", field as u64, out, at);
    let b = put(b"field_name ", out, a);
    let c = put_field_name(kind, field as usize, out, b);
    let d = put_byte(10, out, c);
    put_two(b"value limit ", value, limit, out, d)
}

// The three fractions and their sum, which has room in 64 bits.
pub fn put_fractions(
    onsite: u32,
    offsite: u32,
    decay: u32,
    sum: u64,
    out: &mut [u8],
    at: usize,
) -> usize
    requires { at + 120 ≤ length out.old }
    ensures { WrittenIn 120 (lines_text (fractions_lines onsite offsite decay sum)) out.old out.new at result }
{
    let values = [
        plain(onsite as u64),
        plain(offsite as u64),
        plain(decay as u64),
        plain(sum),
    ];
    put_lines(b"onsite offsite decay sum ", &values, out, at)
}

// The soil type and its two area sums, the current one and the one of twenty years ago.
fn put_soil(soil: u32, current: u64, former: u64, out: &mut [u8], at: usize) -> usize
    requires { at + 120 ≤ length out.old }
    ensures { WrittenIn 120 (lines_text (soil_lines soil current former)) out.old out.new at result }
{
    let values = [plain(soil as u64), plain(current), plain(former)];
    put_lines(b"soil_type area_now area_then ", &values, out, at)
}

// Which row it is and what clashes there, by the numbers of one row. A new number is a new line.
pub fn put_row(reason: Reason, out: &mut [u8], at: usize) -> usize
    requires { at + 240 ≤ length out.old }
    ensures { WrittenIn 240 (lines_text (row_lines reason)) out.old out.new at result }
{
    match reason {
        Reason::IdBelow { row, before } => {
            let next = put_place(row, out, at);
            put_two(b"id_before id ", before, row.id, out, next)
        }
        Reason::FieldAbove {
            row,
            field,
            value,
            limit,
        } => {
            let next = put_named(row, out, at);
            put_limit(row.kind, field, value, limit, out, next)
        }
        Reason::FractionsAbove {
            row,
            onsite,
            offsite,
            decay,
            sum,
        } => {
            let next = put_named(row, out, at);
            put_fractions(onsite, offsite, decay, sum as u64, out, next)
        }
        Reason::SoilUneven {
            row,
            soil,
            now,
            then,
        } => {
            let next = put_named(row, out, at);
            put_soil(soil, now, then, out, next)
        }
        Reason::ScatteredTrees { row, code, edition } => {
            let next = put_named(row, out, at);
            put_two(b"unit_code edition ", code, edition, out, next)
        }
        _ => at,
    }
}

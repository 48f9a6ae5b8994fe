// The lines of a kind: its note and its rows, each field with all its decimals.
ghost use Rattle.std.specs.Prelude.{◌≡◌, [], ◌∷◌, ◌++◌, ◌+◌, ◌*◌, ◌^◌, ◌≤◌, ◌<◌, length};
ghost use Rattle.form.specs.Layout.{kinds, numbers_of};
ghost use Rattle.decimal.specs.Digits.{padded, WrittenAt};
ghost use Rattle.phrases.specs.Lines.{WrittenIn};
ghost use Rattle.filing.specs.Lists.{rows_in};
ghost use Rattle.cells.specs.Lines.{ended};
ghost use Rattle.numerals.specs.Written.{pointed, printed};
ghost use Rattle.columns.specs.Columns.{is_unit};
ghost use Rattle.unpacked.specs.Unpacked.{unit_word, field_text, row_line, note_line, row_lines_to, kind_lines};
ghost use Rattle.unpacked.specs.Rooms.{field_room, row_room, note_room, kind_room};

use columns::decimals;
use form::layout::numbers;
use naming::put_kind_name;
use phrases::text::{put, put_byte};

// Ten to the power d.
fn power(d: u32) -> u32
    requires { d ≤ 4 }
    ensures { result ≡ 10 ^ d }
{
    match d {
        0 => 1,
        1 => 10,
        2 => 100,
        3 => 1000,
        _ => 10000,
    }
}

// The last d digits of n, zeros in front among them.
fn put_last(d: u32, n: u32, out: &mut [u8], at: usize) -> usize
    requires { at + d ≤ length out.old }
    ensures { WrittenAt (padded d n) out.old out.new at result }
{
    if d == 0 {
        return at;
    }
    let next = put_last(d - 1, n / 10, out, at);
    put_byte(48 + (n % 10) as u8, out, next)
}

// A point and the decimals, where there are some.
fn put_pointed(d: u32, n: u32, out: &mut [u8], at: usize) -> usize
    requires { (d ≤ 4) × (at + length (pointed d n) ≤ length out.old) }
    ensures { WrittenAt (pointed d n) out.old out.new at result }
{
    if d == 0 {
        return at;
    }
    let next = put_byte(46, out, at);
    put_last(d, n, out, next)
}

// n units with d decimals: the whole part, and behind a point exactly d digits.
fn put_printed(d: u32, n: u32, out: &mut [u8], at: usize) -> usize
    requires { (d ≤ 4) × (at + field_room ≤ length out.old) }
    ensures { WrittenIn field_room (printed d n) out.old out.new at result }
{
    let whole = n / power(d);
    let next = decimal::write(wide::of(whole as u64), out, at);
    put_pointed(d, n, out, next)
}

fn put_unit(code: u32, out: &mut [u8], at: usize) -> usize
    requires { at + field_room ≤ length out.old }
    ensures { WrittenIn field_room (unit_word code) out.old out.new at result }
{
    if code == 1 {
        return put(b"trees", out, at);
    }
    put(b"land", out, at)
}

// The one field that is a word.
fn is_unit(kind: usize, i: usize) -> bool
    ensures { result ≡ is_unit kind i }
{
    if kind != 2 {
        return false;
    }
    i == 1
}

// A stock row's unit is its second number; other kinds' decimals don't go by it.
fn put_field(kind: usize, row: &[u32], i: usize, out: &mut [u8], at: usize) -> usize
    requires { (i < numbers_of kind) × (i < length row.now) × (1 < length row.now) × (at + field_room ≤ length out.old) }
    ensures { WrittenIn field_room (field_text kind row.now i) out.old out.new at result }
{
    if is_unit(kind, i) {
        return put_unit(row[i], out, at);
    }
    put_printed(decimals(kind, row[1], i), row[i], out, at)
}

// A row's line with its end: the kind's name, and each field behind a comma.
fn put_row(kind: usize, row: &[u32], out: &mut [u8], at: usize) -> usize
    requires { (0 < kind) × (kind ≤ kinds) × (length row.now ≡ numbers_of kind) × (at + row_room kind ≤ length out.old) }
    ensures { WrittenIn (row_room kind) (row_line kind row.now ++ 10 ∷ []) out.old out.new at result }
{
    let mut to = put_kind_name(kind as u32, out, at);
    for i in 0..row.len() {
        let next = put_byte(44, out, to);
        to = put_field(kind, row, i, out, next);
    }
    put_byte(10, out, to)
}

// The lines of the first n rows.
fn put_rows(kind: usize, rows: &[u32], n: usize, out: &mut [u8], at: usize) -> usize
    requires { (0 < kind) × (kind ≤ kinds) × (n ≤ 32) × (numbers_of kind * n ≤ length rows.now) × (at + row_room kind * n ≤ length out.old) }
    ensures { WrittenIn (row_room kind * n) (ended (row_lines_to kind rows.now n)) out.old out.new at result }
{
    let m = numbers(kind);
    let mut to = at;
    for i in 0..n {
        let from = m * i;
        let end = from + m;
        to = put_row(kind, &rows[from..end], out, to);
    }
    to
}

// The note of a kind, with its end. A new kind is a new line.
fn put_note(kind: usize, out: &mut [u8], at: usize) -> usize
    requires { (0 < kind) × (kind ≤ kinds) × (at + note_room ≤ length out.old) }
    ensures { WrittenIn note_room (note_line kind ++ 10 ∷ []) out.old out.new at result }
{
    match kind {
        1 => put(
            b"# conversion,id,area (kha),before (t/ha),after (t/ha),on-site_fraction,on-site_oxidised_fraction,on-site_carbon_fraction,\
              off-site_fraction,off-site_oxidised_fraction,off-site_carbon_fraction,ten-year_area (kha),ten-year_before (t/ha),ten-year_after (t/ha),\
              decay_fraction,decay_carbon_fraction\n",
            out,
            at,
        ),
        2 => put(
            b"# stock,id,unit_code (land or trees),rate (t/ha or kt per 1000 trees),amount (kha or 1000 trees),carbon_fraction\n",
            out,
            at,
        ),
        3 => put(
            b"# harvest,id,F (1000 m3),G (t/m3),I (kt),J (kt)\n",
            out,
            at,
        ),
        4 => put(b"# parameters,N,CH4,CO,N/C,N2O,NOx\n", out, at),
        5 => put(
            b"# abandoned,id,area (kha),growth_rate (t/ha),carbon_fraction,longer_area (kha),longer_growth_rate (t/ha),longer_carbon_fraction\n",
            out,
            at,
        ),
        6 => put(
            b"# savanna,id,area (kha),density (t/ha),fraction_really_burned,live_fraction,live_oxidised_fraction,live_carbon_fraction,\
              dead_oxidised_fraction,dead_carbon_fraction,N/C,CH4,CO,N2O,NOx\n",
            out,
            at,
        ),
        7 => put(
            b"# soil,id,land_system,soil_type,area_now (Mha),area_then (Mha),native (t/ha),base,tillage,input\n",
            out,
            at,
        ),
        _ => put(
            b"# crop,id,production (kt),residue_ratio,dry_matter,burned_fraction,oxidised_fraction,carbon_fraction,N/C,CH4,CO,N2O,NOx\n",
            out,
            at,
        ),
    }
}

// A kind's lines: none where it has no rows, and else its note and its n rows.
pub fn put_kind(kind: usize, rows: &[u32], n: usize, out: &mut [u8], at: usize) -> usize
    requires { (0 < kind) × (kind ≤ kinds) × (n ≤ 32) × (n ≡ rows_in kind (length rows.now)) × (at + kind_room kind ≤ length out.old) }
    ensures { WrittenIn (kind_room kind) (ended (kind_lines kind rows.now)) out.old out.new at result }
{
    if n == 0 {
        return at;
    }
    let next = put_note(kind, out, at);
    put_rows(kind, rows, n, out, next)
}

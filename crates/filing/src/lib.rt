// Rows in records and blocks, encoded to lent bytes.
#![tactic(auto)]

ghost use Rattle.std.specs.Prelude.{◌≡◌, [], ◌∷◌, ◌+◌, ◌-◌, ◌*◌, ◌^◌, ◌≤◌, ◌<◌, min, length, drop};
ghost use Rattle.std.proofs.lemmas.List.Edits.{sets};
ghost use Rattle.form.specs.Layout.{kinds, layout, numbers_of};
ghost use Rattle.filing.specs.Lists.{rows_in, blocks_of, filed_list};
ghost use Rattle.filing.specs.Written.{zeros, record_of, in_turn, head_of, record_on, block_of, kind_blocks};
ghost use Rattle.form.specs.Bytes.{little_endian};

use form::check_due;
use form::layout::{field, numbers};

fn put_byte(out: &mut [u8], at: usize, v: usize)
    requires { (v < 256) × (at < length out.old) }
    ensures { out.new ≡ sets out.old at (v ∷ []) }
{
    out[at] = v as u8;
}

fn put_two(out: &mut [u8], at: usize, v: u32)
    requires { at + 2 ≤ length out.old }
    ensures { out.new ≡ sets out.old at (little_endian 2 v) }
{
    out[at] = (v % 256) as u8;
    out[at + 1] = (v / 256 % 256) as u8;
}

fn put_four(out: &mut [u8], at: usize, v: u32)
    requires { at + 4 ≤ length out.old }
    ensures { out.new ≡ sets out.old at (little_endian 4 v) }
{
    put_two(out, at, v);
    put_two(out, at + 2, v / 65536);
}

fn put_number(out: &mut [u8], at: usize, w: usize, v: u32)
    requires { (0 < w) × (w ≤ 4) × (w ≡ 3 → ⊥) × (at + w ≤ length out.old) }
    ensures { out.new ≡ sets out.old at (little_endian w v) }
{
    if w == 2 {
        put_two(out, at, v);
        return;
    }
    if w == 4 {
        put_four(out, at, v);
        return;
    }
    out[at] = (v % 256) as u8;
}

fn clear(out: &mut [u8], at: usize, n: usize)
    requires { at + n ≤ length out.old }
    ensures { out.new ≡ sets out.old at (zeros n) }
{
    for i in 0..n {
        out[at + i] = 0;
    }
}

// The record of the row at `from`, to the bytes from `to` on.
fn write_fields(kind: usize, rows: &[u32], from: usize, out: &mut [u8], to: usize)
    requires { (from + numbers_of kind ≤ length rows.now) × (to + 40 ≤ length out.old) }
    ensures { out.new ≡ sets out.old to (record_of (layout kind) (drop from rows.now)) }
{
    let n = numbers(kind);
    let mut k: usize = 0;
    for i in 0..n {
        let f = field(kind, i);
        clear(out, to + k, f.zeros);
        put_number(out, to + k + f.zeros, f.width, rows[from + i]);
        k = k + f.zeros + f.width;
    }
    clear(out, to + k, 40 - k);
}

// The kind by its number, so that the compiler lays out each kind's record by itself.
fn write_record(kind: usize, rows: &[u32], from: usize, out: &mut [u8], to: usize)
    requires { (from + numbers_of kind ≤ length rows.now) × (to + 40 ≤ length out.old) }
    ensures { out.new ≡ sets out.old to (record_of (layout kind) (drop from rows.now)) }
{
    match kind {
        1 => write_fields(1, rows, from, out, to),
        2 => write_fields(2, rows, from, out, to),
        3 => write_fields(3, rows, from, out, to),
        4 => write_fields(4, rows, from, out, to),
        5 => write_fields(5, rows, from, out, to),
        6 => write_fields(6, rows, from, out, to),
        7 => write_fields(7, rows, from, out, to),
        8 => write_fields(8, rows, from, out, to),
        _ => write_fields(kind, rows, from, out, to),
    }
}

// The record at place j of a list of m rows, or zeros behind the last.
fn write_place(kind: usize, rows: &[u32], m: usize, j: usize, out: &mut [u8], to: usize)
    requires { (m ≡ rows_in kind (length rows.now)) × (to + 40 ≤ length out.old) }
    ensures { out.new ≡ sets out.old to (record_on (filed_list kind rows.now) j) }
{
    if j < m {
        write_record(kind, rows, numbers(kind) * j, out, to);
    } else {
        clear(out, to, 40);
    }
}

fn write_records(kind: usize, rows: &[u32], m: usize, place: usize, out: &mut [u8], to: usize)
    requires { (m ≡ rows_in kind (length rows.now)) × (place < 2 ^ 24) × (to + 480 ≤ length out.old) }
    ensures { out.new ≡ sets out.old to (in_turn (record_on (filed_list kind rows.now)) place 12) }
{
    let mut at = to;
    for i in 0..12 {
        write_place(kind, rows, m, place + i, out, at);
        at += 40;
    }
}

fn write_head(
    edition: u32,
    kind: usize,
    count: usize,
    b: usize,
    n: usize,
    out: &mut [u8],
    to: usize,
)
    requires { (kind < 256) × (count ≤ 12) × (b < 65536) × (n < 65536) × (to + 8 ≤ length out.old) }
    ensures { out.new ≡ sets out.old to (head_of edition kind count b n) }
{
    put_byte(out, to, kind);
    put_byte(out, to + 1, count);
    put_two(out, to + 2, b as u32);
    put_two(out, to + 4, n as u32);
    put_two(out, to + 6, edition);
}

// Of m rows, how many stand in block b.
fn used_in(m: usize, b: usize) -> usize
    requires { 12 * b ≤ m }
    ensures { result ≡ min 12 (m - 12 * b) }
{
    let left = m - 12 * b;
    if left < 12 { left } else { 12 }
}

// Block b of a list of m rows, of n blocks in all, the list's first being number `start`.
fn write_block(
    edition: u32,
    kind: usize,
    rows: &[u32],
    m: usize,
    b: usize,
    start: usize,
    n: usize,
    out: &mut [u8],
)
    requires kind_bound { (kind < 256) × (m ≡ rows_in kind (length rows.now)) × (12 * b ≤ m) }
    requires b_bound { (start + b < n) × (n < 65536) × (512 * n ≤ length out.old) }
    ensures { out.new ≡ sets out.old (512 * (start + b)) (block_of edition (filed_list kind rows.now) start n b) }
{
    let to = 512 * (start + b);
    write_head(edition, kind, used_in(m, b), start + b, n, out, to);
    write_records(kind, rows, m, 12 * b, out, to + 8);
    clear(out, to + 488, 20);
    let check = check_due(out, start + b);
    put_four(out, to + 508, check);
}

// All blocks of a list, of n blocks in all, the first being number `start`.
pub fn write_kind(edition: u32, kind: usize, rows: &[u32], start: usize, n: usize, out: &mut [u8])
    requires kind_nonzero { (0 < kind) × (kind ≤ kinds) }
    requires rows_bound { (start + blocks_of kind (length rows.now) ≤ n) × (n < 65536) × (512 * n ≤ length out.old) }
    ensures { out.new ≡ sets out.old (512 * start) (kind_blocks edition n kind rows.now start) }
{
    let m = rows.len() / numbers(kind);
    let blocks = (m + 11) / 12;
    for b in 0..blocks {
        write_block(edition, kind, rows, m, b, start, n, out);
    }
}

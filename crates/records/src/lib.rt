// Rules 5, 6, 14 and 7: the records of a return, block by block over those that are used.
#![tactic(auto)]

ghost use Rattle.std.specs.Prelude.{◌≡◌, false, ◌+◌, ◌*◌, ◌^◌, ◌≤◌, ◌<◌, min, length};
ghost use Rattle.form.specs.First.{first};
ghost use Rattle.form.specs.Layout.{layout, conversion, stock, row_at, above_limit};
ghost use Rattle.form.specs.Block.{blocks, count_of, edition};
ghost use Rattle.form.specs.Records.{filed, has_id, is_scattered, bad_id, overspent, test_numbered};
ghost use Rattle.records.specs.Steps.{row_test, record_test};

use form::layout::{field, numbers};
use form::{KINDS, PARAMETERS, byte_at, four_at, number_at, spares, two_at};

// How many of a block's twelve records are used.
fn used_in(bytes: &[u8], b: usize) -> usize
    requires { b < blocks bytes.now }
    ensures { result ≡ min 12 (count_of bytes.now b) }
{
    let count = byte_at(bytes, 512 * b + 1) as usize;
    if count < 12 { count } else { 12 }
}

// No early way out, so that the compiler makes straight code of the fields.
fn above_fields(bytes: &[u8], kind: usize, at: usize) -> bool
    requires { at + 40 ≤ length bytes.now }
    ensures { result ≡ above_limit (layout kind) (row_at (layout kind) bytes.now at) }
{
    let n = numbers(kind);
    let mut above = false;
    let mut k: usize = 0;
    for i in 0..n {
        let f = field(kind, i);
        k += f.zeros;
        above = above | (f.limit < number_at(bytes, at + k, f.width));
        k += f.width;
    }
    above
}

// The kind by its number, for the same reason; another number has no fields, as 0 has. A new kind is a new line.
fn above_at(bytes: &[u8], kind: u32, at: usize) -> bool
    requires { at + 40 ≤ length bytes.now }
    ensures { result ≡ above_limit (layout kind) (row_at (layout kind) bytes.now at) }
{
    match kind {
        1 => above_fields(bytes, 1, at),
        2 => above_fields(bytes, 2, at),
        3 => above_fields(bytes, 3, at),
        4 => above_fields(bytes, 4, at),
        5 => above_fields(bytes, 5, at),
        6 => above_fields(bytes, 6, at),
        7 => above_fields(bytes, 7, at),
        8 => above_fields(bytes, 8, at),
        _ => above_fields(bytes, 0, at),
    }
}

fn overspent_at(bytes: &[u8], at: usize) -> bool
    requires { at + 40 ≤ length bytes.now }
    ensures { result ≡ overspent (row_at conversion bytes.now at) }
{
    1000 < two_at(bytes, at + 12) + two_at(bytes, at + 18) + two_at(bytes, at + 32)
}

// A stock row of scattered trees.
fn scattered_at(bytes: &[u8], at: usize) -> bool
    requires { at + 40 ≤ length bytes.now }
    ensures { result ≡ is_scattered (row_at stock bytes.now at) }
{
    byte_at(bytes, at + 4) == 1
}

// A rule of one row, by its number, of the record at a place. A new rule is a new line.
fn breaks(bytes: &[u8], number: u32, kind: u32, at: usize) -> bool
    requires { at + 40 ≤ length bytes.now }
    ensures { result ≡ test_numbered number (edition bytes.now 0) kind (row_at (layout kind) bytes.now at) }
{
    match number {
        6 => above_at(bytes, kind, at),
        14 => (two_at(bytes, 6) == 3) & ((kind == 2) & scattered_at(bytes, at)),
        7 => (kind == 1) & overspent_at(bytes, at),
        _ => false,
    }
}

// A rule of one row in a block.
fn first_row_in(bytes: &[u8], number: u32, b: usize) -> Option<u32>
    requires { b < blocks bytes.now }
    ensures { result ≡ first (λ r. row_test number bytes.now (12 * b + r)) 12 }
{
    let kind = byte_at(bytes, 512 * b);
    if spares(number, two_at(bytes, 6), kind) {
        return None;
    }
    let used = used_in(bytes, b);
    for r in 0..used {
        if breaks(bytes, number, kind, 512 * b + 8 + 40 * r) {
            return Some(r as u32);
        }
    }
    None
}

// Every kind but the parameters.
fn has_id(kind: u32) -> bool
    ensures { result ≡ has_id kind }
{
    (0 < kind) & ((kind <= KINDS as u32) & (kind != PARAMETERS as u32))
}

// The first record of a block against the last of the block before it.
fn bad_first_id(bytes: &[u8], b: usize) -> bool
    requires { b < blocks bytes.now }
    ensures { result ≡ bad_id (filed bytes.now) (12 * b) }
{
    if b < 1 {
        return false;
    }
    let count = byte_at(bytes, 512 * b + 1);
    let kind = byte_at(bytes, 512 * b);
    let same = byte_at(bytes, 512 * (b - 1)) == kind;
    let falls = four_at(bytes, 512 * b + 8) <= four_at(bytes, 512 * (b - 1) + 8 + 440);
    (0 < count) & (has_id(kind) & (same & falls))
}

// The later records of a block, each against the one before it: every id is read once.
fn bad_later_id(bytes: &[u8], b: usize) -> Option<u32>
    requires { (b < blocks bytes.now) × (bad_id (filed bytes.now) (12 * b) ≡ false) }
    ensures { result ≡ first (λ r. bad_id (filed bytes.now) (12 * b + r)) 12 }
{
    let kind = byte_at(bytes, 512 * b);
    if !has_id(kind) {
        return None;
    }
    let used = used_in(bytes, b);
    let mut last = four_at(bytes, 512 * b + 8);
    for r in 1..used {
        let id = four_at(bytes, 512 * b + 8 + 40 * r);
        if id <= last {
            return Some(r as u32);
        }
        last = id;
    }
    None
}

// Rule 5 in a block.
fn first_id_in(bytes: &[u8], b: usize) -> Option<u32>
    requires { b < blocks bytes.now }
    ensures { result ≡ first (λ r. bad_id (filed bytes.now) (12 * b + r)) 12 }
{
    if bad_first_id(bytes, b) {
        return Some(0);
    }
    bad_later_id(bytes, b)
}

// A rule of records, by its number, in a block.
fn first_in(bytes: &[u8], number: u32, b: usize) -> Option<u32>
    requires { b < blocks bytes.now }
    ensures { result ≡ first (λ r. record_test number bytes.now (12 * b + r)) 12 }
{
    if number == 5 {
        return first_id_in(bytes, b);
    }
    first_row_in(bytes, number, b)
}

// "A record's place is 12 times its block plus its position."
fn place(b: usize, r: u32) -> u32
    requires { (b < 2 ^ 24) × (r < 12) }
    ensures { result ≡ 12 * b + r }
{
    12 * (b as u32) + r
}

// A rule of records over all blocks.
pub fn first_broken(bytes: &[u8], number: u32) -> Option<u32>
    requires { length bytes.now < 2 ^ 24 }
    ensures { result ≡ first (record_test number bytes.now) (12 * blocks bytes.now) }
{
    let n = bytes.len() / 512;
    for b in 0..n {
        let spot = first_in(bytes, number, b);
        if let Some(r) = spot {
            return Some(place(b, r));
        }
    }
    None
}

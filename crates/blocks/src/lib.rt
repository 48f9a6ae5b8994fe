// Rule 4 of a block: its zero bytes, and with what `sequence` tests the rule whole.
#![tactic(auto)]

ghost use Rattle.std.specs.Prelude.{◌≡◌, ◌+◌, ◌*◌, ◌^◌, ◌≤◌, ◌<◌, length};
ghost use Rattle.form.specs.First.{any};
ghost use Rattle.form.specs.Layout.{layout, stray_at};
ghost use Rattle.form.specs.Block.{blocks, stray_record, bad_block};

use form::layout::{field, numbers};
use form::{byte_at, stray_in};
use sequence::{
    bad_count, blocks_below, ends_low, kind_falls, low_behind, none_before, not_filled, over_filled,
};

// In a used record: before a field and after the last.
fn stray_fields(bytes: &[u8], kind: usize, at: usize) -> bool
    requires { at + 40 ≤ length bytes.now }
    ensures { result ≡ stray_at (layout kind) bytes.now at }
{
    let n = numbers(kind);
    let mut stray = false;
    let mut k: usize = 0;
    for i in 0..n {
        let f = field(kind, i);
        stray = stray | stray_in(bytes, at + k, f.zeros);
        k = k + f.zeros + f.width;
    }
    stray | stray_in(bytes, at + k, 40 - k)
}

// The kind by its number, so that the compiler makes straight code of each kind's fields; another number has none, as 0 has. A new kind is a new line.
fn stray_at(bytes: &[u8], kind: u32, at: usize) -> bool
    requires { at + 40 ≤ length bytes.now }
    ensures { result ≡ stray_at (layout kind) bytes.now at }
{
    match kind {
        1 => stray_fields(bytes, 1, at),
        2 => stray_fields(bytes, 2, at),
        3 => stray_fields(bytes, 3, at),
        4 => stray_fields(bytes, 4, at),
        5 => stray_fields(bytes, 5, at),
        6 => stray_fields(bytes, 6, at),
        7 => stray_fields(bytes, 7, at),
        8 => stray_fields(bytes, 8, at),
        _ => stray_fields(bytes, 0, at),
    }
}

fn stray_record(bytes: &[u8], b: usize, r: usize) -> bool
    requires { (b < blocks bytes.now) × (r < 12) }
    ensures { result ≡ stray_record bytes.now b r }
{
    if r < byte_at(bytes, 512 * b + 1) as usize {
        stray_at(bytes, byte_at(bytes, 512 * b), 512 * b + 8 + 40 * r)
    } else {
        stray_in(bytes, 512 * b + 8 + 40 * r, 40)
    }
}

fn stray_records(bytes: &[u8], b: usize) -> bool
    requires { b < blocks bytes.now }
    ensures { result ≡ any (stray_record bytes.now b) 12 }
{
    for r in 0..12 {
        if stray_record(bytes, b, r) {
            return true;
        }
    }
    false
}

// Rule 4 of a block, whole.
pub fn bad_block(bytes: &[u8], b: usize) -> bool
    requires { (b < blocks bytes.now) × (length bytes.now < 2 ^ 24) }
    ensures { result ≡ bad_block bytes.now b }
{
    let earlier = blocks_below(bytes, byte_at(bytes, 512 * b), b);
    let count = byte_at(bytes, 512 * b + 1);
    kind_falls(bytes, b)
        | low_behind(bytes, b)
        | ends_low(bytes, b)
        | none_before(bytes, b)
        | (3 <= earlier)
        | bad_count(bytes, b)
        | not_filled(bytes, b)
        | over_filled(earlier, count)
        | (stray_records(bytes, b) | stray_in(bytes, 512 * b + 488, 20))
}

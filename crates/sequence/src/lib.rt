// Rule 4's tests of a block's kind and count, by themselves and beside the blocks before and behind it.
#![tactic(auto)]

ghost use Rattle.std.specs.Prelude.{◌≡◌, ◌&&◌, ◌^◌, ◌<◌, length, ltb, eqb};
ghost use Rattle.form.specs.Block.{blocks, kind_falls, low_behind, ends_low, none_before, blocks_below, bad_count, not_filled};

use form::{PARAMETERS, byte_at, where_same};

pub fn kind_falls(bytes: &[u8], b: usize) -> bool
    requires { b < blocks bytes.now }
    ensures { result ≡ kind_falls bytes.now b }
{
    if 0 < b {
        return byte_at(bytes, 512 * b) < byte_at(bytes, 512 * (b - 1));
    }
    false
}

pub fn low_behind(bytes: &[u8], b: usize) -> bool
    requires { b < blocks bytes.now }
    ensures { result ≡ low_behind bytes.now b }
{
    if b + 1 < bytes.len() / 512 {
        let parameters = byte_at(bytes, 512 * b) == PARAMETERS as u32;
        return parameters & (byte_at(bytes, 512 * (b + 1)) <= PARAMETERS as u32);
    }
    false
}

pub fn ends_low(bytes: &[u8], b: usize) -> bool
    requires { b < blocks bytes.now }
    ensures { result ≡ ends_low bytes.now b }
{
    let last = b + 1 == bytes.len() / 512;
    last & (byte_at(bytes, 512 * b) < PARAMETERS as u32)
}

pub fn blocks_below(bytes: &[u8], kind: u32, b: usize) -> u32
    requires { (b < blocks bytes.now) × (length bytes.now < 2 ^ 24) }
    ensures { result ≡ blocks_below kind bytes.now b }
{
    let mut n: u32 = 0;
    for a in 0..b {
        n += where_same(byte_at(bytes, 512 * a), kind, 1);
    }
    n
}

pub fn none_before(bytes: &[u8], b: usize) -> bool
    requires { (b < blocks bytes.now) × (length bytes.now < 2 ^ 24) }
    ensures { result ≡ none_before bytes.now b }
{
    if (PARAMETERS as u32) < byte_at(bytes, 512 * b) {
        return blocks_below(bytes, PARAMETERS as u32, b) == 0;
    }
    false
}

pub fn bad_count(bytes: &[u8], b: usize) -> bool
    requires { b < blocks bytes.now }
    ensures { result ≡ bad_count bytes.now b }
{
    let count = byte_at(bytes, 512 * b + 1);
    let kind = byte_at(bytes, 512 * b);
    (count < 1) | (12 < count) | ((kind == PARAMETERS as u32) & (count != 1))
}

pub fn not_filled(bytes: &[u8], b: usize) -> bool
    requires { b < blocks bytes.now }
    ensures { result ≡ not_filled bytes.now b }
{
    if b + 1 < bytes.len() / 512 {
        let next = byte_at(bytes, 512 * (b + 1));
        return (next == byte_at(bytes, 512 * b)) & (byte_at(bytes, 512 * b + 1) != 12);
    }
    false
}

// By how many of its kind come before it.
pub fn over_filled(earlier: u32, count: u32) -> bool
    ensures { result ≡ (eqb earlier 2 && ltb 8 count) }
{
    (earlier == 2) & (8 < count)
}

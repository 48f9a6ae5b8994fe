// Numbers as decimal text, written to lent room at a place. `put` has zeros in front, `write` none.
#![tactic(auto)]

ghost use Rattle.std.specs.Prelude.{◌≡◌, ◌+◌, ◌^◌, ◌<◌, ◌≤◌, length};
ghost use Rattle.wide.specs.Numbers.{value};
ghost use Rattle.wide.specs.Signs.{amount, Canonical};
ghost use Rattle.decimal.specs.Digits.{decimal, padded, sign_text, marked, WrittenAt};

use wide::signed::Signed;
use wide::{Wide, divide};

fn digit(d: u32) -> u8
    requires { d < 10 }
    ensures { result ≡ 48 + d }
{
    48 + d as u8
}

// Digits in groups, split in halves: the two halves of a group do not wait for each other, as digits from the last would.
fn put_two(d: u32, out: &mut [u8], at: usize) -> usize
    requires { (d < 10 ^ 2) × (at + 2 ≤ length out.old) }
    ensures { WrittenAt (padded 2 d) out.old out.new at result }
{
    out[at] = digit(d / 10);
    out[at + 1] = digit(d % 10);
    at + 2
}

fn put_four(d: u32, out: &mut [u8], at: usize) -> usize
    requires { (d < 10 ^ 4) × (at + 4 ≤ length out.old) }
    ensures { WrittenAt (padded 4 d) out.old out.new at result }
{
    let next = put_two(d / 100, out, at);
    put_two(d % 100, out, next)
}

fn put_eight(d: u32, out: &mut [u8], at: usize) -> usize
    requires { (d < 10 ^ 8) × (at + 8 ≤ length out.old) }
    ensures { WrittenAt (padded 8 d) out.old out.new at result }
{
    let next = put_four(d / 10000, out, at);
    put_four(d % 10000, out, next)
}

fn write_two(d: u32, out: &mut [u8], at: usize) -> usize
    requires { (d < 10 ^ 2) × (at + length (decimal d) ≤ length out.old) }
    ensures { WrittenAt (decimal d) out.old out.new at result }
{
    if d < 10 {
        out[at] = digit(d);
        return at + 1;
    }
    put_two(d, out, at)
}

fn write_four(d: u32, out: &mut [u8], at: usize) -> usize
    requires { (d < 10 ^ 4) × (at + length (decimal d) ≤ length out.old) }
    ensures { WrittenAt (decimal d) out.old out.new at result }
{
    if d < 100 {
        return write_two(d, out, at);
    }
    let next = write_two(d / 100, out, at);
    put_two(d % 100, out, next)
}

fn write_eight(d: u32, out: &mut [u8], at: usize) -> usize
    requires { (d < 10 ^ 8) × (at + length (decimal d) ≤ length out.old) }
    ensures { WrittenAt (decimal d) out.old out.new at result }
{
    if d < 10000 {
        return write_four(d, out, at);
    }
    let next = write_four(d / 10000, out, at);
    put_four(d % 10000, out, next)
}

fn write_twelve(d: u64, out: &mut [u8], at: usize) -> usize
    requires { (d < 10 ^ 12) × (at + length (decimal d) ≤ length out.old) }
    ensures { WrittenAt (decimal d) out.old out.new at result }
{
    if d < 100000000 {
        return write_eight(d as u32, out, at);
    }
    let next = write_four((d / 100000000) as u32, out, at);
    put_eight((d % 100000000) as u32, out, next)
}

// A whole word: at most twenty digits.
fn write_word(d: u64, out: &mut [u8], at: usize) -> usize
    requires { at + length (decimal d) ≤ length out.old }
    ensures { WrittenAt (decimal d) out.old out.new at result }
{
    if d < 100000000 {
        return write_eight(d as u32, out, at);
    }
    let next = write_twelve(d / 100000000, out, at);
    put_eight((d % 100000000) as u32, out, next)
}

// Eight digits at a time, until one word holds what is left.
fn write_long(x: Wide, out: &mut [u8], at: usize) -> usize
    requires { at + length (decimal (value x)) ≤ length out.old }
    ensures { WrittenAt (decimal (value x)) out.old out.new at result }
{
    if x.hi == 0 {
        return write_word(x.lo, out, at);
    }
    let p = divide(x, 100000000);
    let next = write_long(p.quotient, out, at);
    put_eight(p.rest as u32, out, next)
}

// Writes x's digits at a place, the upper ones first, and answers the next place. Most figures are one word.
pub fn write(x: Wide, out: &mut [u8], at: usize) -> usize
    requires { at + length (decimal (value x)) ≤ length out.old }
    ensures { WrittenAt (decimal (value x)) out.old out.new at result }
{
    if x.hi == 0 {
        return write_word(x.lo, out, at);
    }
    write_long(x, out, at)
}

fn put_sign(below: bool, out: &mut [u8], at: usize) -> usize
    requires { at + length (sign_text below) ≤ length out.old }
    ensures { WrittenAt (sign_text below) out.old out.new at result }
{
    if below {
        out[at] = 45;
        return at + 1;
    }
    at
}

// The same with a minus sign in front where s is below zero.
pub fn write_signed(s: Signed, out: &mut [u8], at: usize) -> usize
    requires { Canonical s × (at + length (marked (amount s)) ≤ length out.old) }
    ensures { WrittenAt (marked (amount s)) out.old out.new at result }
{
    let next = put_sign(s.below, out, at);
    write(s.size, out, next)
}

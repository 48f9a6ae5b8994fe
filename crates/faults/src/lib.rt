// What is wrong with a block by number 4: the first fault in the order of the paper's sentence.
#![tactic(auto)]

ghost use Rattle.std.specs.Prelude.{◌≡◌, ◌^◌, ◌<◌, length};
ghost use Rattle.form.specs.Layout.{layout};
ghost use Rattle.form.specs.Block.{blocks};
ghost use Rattle.faults.specs.Faults.{zero_from, zero_due, stray_fault, ends_wrong, fault_of};

use form::byte_at;
use form::layout::{field, numbers};
use sequence::{
    bad_count, blocks_below, ends_low, kind_falls, low_behind, none_before, not_filled, over_filled,
};

// The faults, with the values that a clerk needs beside the block's header.
#[derive(Clone, Copy)]
pub enum Fault {
    Order { kind_before: u32 },
    End,
    Fourth,
    Count,
    Unfilled { kind_next: u32 },
    Overfilled,
    Stray { offset: u32, byte: u32 },
}

// Whether byte k of a used record is before a field or after the last, where zero is due.
fn due_in_record(kind: usize, k: usize) -> bool
    ensures { result ≡ zero_from 0 (layout kind) k }
{
    let n = numbers(kind);
    let mut due = false;
    let mut at: usize = 0;
    for i in 0..n {
        let f = field(kind, i);
        due = due | ((at <= k) & (k < at + f.zeros));
        at = at + f.zeros + f.width;
    }
    due | (at <= k)
}

// Whether zero is due at an offset of a block: in its records, the unused ones whole, and behind them.
fn zero_due(bytes: &[u8], b: usize, i: usize) -> bool
    requires { b < blocks bytes.now }
    ensures { result ≡ zero_due bytes.now b i }
{
    if i < 8 {
        return false;
    }
    if 488 <= i {
        return i < 508;
    }
    if (i - 8) / 40 < byte_at(bytes, 512 * b + 1) as usize {
        return due_in_record(byte_at(bytes, 512 * b) as usize, (i - 8) % 40);
    }
    true
}

// The first non-zero byte where zero is due; a block that has none is not asked about.
fn first_stray(bytes: &[u8], b: usize) -> Fault
    requires { b < blocks bytes.now }
    ensures { result ≡ stray_fault bytes.now b }
{
    for i in 0..512 {
        let byte = byte_at(bytes, 512 * b + i);
        if zero_due(bytes, b, i) & (byte != 0) {
            return Fault::Stray {
                offset: i as u32,
                byte,
            };
        }
    }
    Fault::Stray {
        offset: 512,
        byte: 0,
    }
}

// The rules on the last block.
fn ends_wrong(bytes: &[u8], b: usize) -> bool
    requires { (b < blocks bytes.now) × (length bytes.now < 2 ^ 24) }
    ensures { result ≡ ends_wrong bytes.now b }
{
    low_behind(bytes, b) | ends_low(bytes, b) | none_before(bytes, b)
}

// In the order of the sentence.
pub fn first_fault(bytes: &[u8], b: usize) -> Fault
    requires { (b < blocks bytes.now) × (length bytes.now < 2 ^ 24) }
    ensures { result ≡ fault_of bytes.now b }
{
    if kind_falls(bytes, b) {
        return Fault::Order {
            kind_before: byte_at(bytes, 512 * (b - 1)),
        };
    }
    if ends_wrong(bytes, b) {
        return Fault::End;
    }
    let earlier = blocks_below(bytes, byte_at(bytes, 512 * b), b);
    if 3 <= earlier {
        return Fault::Fourth;
    }
    if bad_count(bytes, b) {
        return Fault::Count;
    }
    if not_filled(bytes, b) {
        return Fault::Unfilled {
            kind_next: byte_at(bytes, 512 * (b + 1)),
        };
    }
    if over_filled(earlier, byte_at(bytes, 512 * b + 1)) {
        return Fault::Overfilled;
    }
    first_stray(bytes, b)
}

// The lines of a refusal behind its first: the values that clash, with their names.
#![tactic(auto)]

mod lines;

ghost use Rattle.std.specs.Prelude.{◌≡◌, ◌+◌, ◌≤◌, [], ◌∷◌, length};
ghost use Rattle.phrases.specs.Lines.{WrittenIn, lines_text};
ghost use Rattle.wording.specs.Wording.{word_of, fault_line, fault_lines, value_lines};

use crate::lines::{put_due, put_header, put_wood};
use faults::Fault;
use naming::put_row;
use phrases::text::{put, put_byte};
use phrases::{put_one, put_two};
use reasons::{Header, Reason};

fn word_of(f: Fault) -> &'static [u8]
    ensures { result.now ≡ word_of f }
{
    match f {
        Fault::Order { kind_before: _ } => b"order",
        Fault::End => b"end",
        Fault::Fourth => b"fourth",
        Fault::Count => b"count",
        Fault::Unfilled { kind_next: _ } => b"unfilled",
        Fault::Overfilled => b"overfilled",
        Fault::Stray { offset: _, byte: _ } => b"stray",
    }
}

// Which fault of 4 it is.
fn put_fault_word(f: Fault, out: &mut [u8], at: usize) -> usize
    requires { at + 20 ≤ length out.old }
    ensures { WrittenIn 20 (lines_text (fault_line f ∷ [])) out.old out.new at result }
{
    let a = put(b"fault ", out, at);
    let b = put(word_of(f), out, a);
    put_byte(10, out, b)
}

// What clashes there.
fn put_fault(h: Header, f: Fault, out: &mut [u8], at: usize) -> usize
    requires { at + 200 ≤ length out.old }
    ensures { WrittenIn 200 (lines_text (fault_lines h f)) out.old out.new at result }
{
    match f {
        Fault::Order { kind_before } => {
            let next = put_header(h, out, at);
            put_one(b"kind_before ", kind_before as u64, out, next)
        }
        Fault::Unfilled { kind_next } => {
            let next = put_header(h, out, at);
            put_one(b"kind_next ", kind_next as u64, out, next)
        }
        Fault::Stray { offset, byte } => put_two(b"offset byte ", offset, byte, out, at),
        _ => put_header(h, out, at),
    }
}

// The values that clash. A new number is a new line, here or in `put_row`.
pub fn put_reason(reason: Reason, out: &mut [u8], at: usize) -> usize
    requires { at + 250 ≤ length out.old }
    ensures { WrittenIn 250 (lines_text (value_lines reason)) out.old out.new at result }
{
    match reason {
        Reason::BadLength { length } => put_one(b"length ", length as u64, out, at),
        Reason::BadCheck {
            block: _,
            stored,
            computed,
        } => put_two(b"stored computed ", stored, computed, out, at),
        Reason::BadHeader {
            block,
            said,
            blocks_due,
            edition_first,
        } => {
            let next = put_header(said, out, at);
            put_due(block, blocks_due, edition_first, out, next)
        }
        Reason::BadBlock {
            block: _,
            said,
            fault,
        } => {
            let next = put_fault_word(fault, out, at);
            put_fault(said, fault, out, next)
        }
        Reason::ClearedAbove { used, cleared } => put_wood(used, cleared, out, at),
        _ => put_row(reason, out, at),
    }
}

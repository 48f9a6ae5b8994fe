// What is told of a text's first fault.
ghost use Rattle.std.specs.Prelude.{◌+◌, ◌≤◌, length};
ghost use Rattle.phrases.specs.Lines.{WrittenIn, lines_text};
ghost use Rattle.objections.specs.Objections.{fault_line, field_lines, told_lines, fault_text};

use heads::{Fault, TextFault};
use naming::put_field_name;
use phrases::text::{plain, put, put_byte, put_value};
use phrases::{put_one, put_two, put_word};

// The faults' words by their numbers; 0 is no fault. A new fault is a new word.
const WORDS: [&[u8]; 11] = [
    b"",
    b"long",
    b"edition",
    b"kind",
    b"order",
    b"rows",
    b"fields",
    b"unit",
    b"number",
    b"decimals",
    b"large",
];

// Its line, and the word of its number.
fn put_fault_line(f: TextFault, out: &mut [u8], at: usize) -> usize
    requires { at + 40 ≤ length out.old }
    ensures { WrittenIn 40 (fault_line f) out.old out.new at result }
{
    let a = put(b"refused line ", out, at);
    let b = put_value(plain(f.line as u64), 32, out, a);
    let c = put_word(&WORDS, f.fault.number() as usize, out, b);
    put_byte(10, out, c)
}

// 7 to 10: the field at fault, by its number and its name.
fn put_field(kind: u32, field: u32, out: &mut [u8], at: usize) -> usize
    requires { at + 70 ≤ length out.old }
    ensures { WrittenIn 70 (lines_text (field_lines kind field)) out.old out.new at result }
{
    let a = put_one(b"field ", field as u64, out, at);
    let b = put(b"field_name ", out, a);
    let c = put_field_name(kind, field as usize, out, b);
    put_byte(10, out, c)
}

// What is told behind the first line: 1 to 5 say all by their word.
fn put_told(fault: Fault, out: &mut [u8], at: usize) -> usize
    requires { at + 70 ≤ length out.old }
    ensures { WrittenIn 70 (lines_text (told_lines fault)) out.old out.new at result }
{
    match fault {
        Fault::Fields { due, found } => put_two(b"due found ", due, found, out, at),
        Fault::Cell { kind, field, .. } => put_field(kind, field, out, at),
        Fault::Long | Fault::Edition | Fault::Kind | Fault::Order | Fault::Rows => at,
    }
}

// All lines of a fault.
pub fn put_fault(f: TextFault, out: &mut [u8], at: usize) -> usize
    requires { at + 110 ≤ length out.old }
    ensures { WrittenIn 110 (fault_text f) out.old out.new at result }
{
    let next = put_fault_line(f, out, at);
    put_told(f.fault, out, next)
}

// The first line of a text that counts: the edition, and the separator of the file.
#![tactic(auto)]

ghost use Rattle.std.specs.Prelude.{◌≡◌, true, false, ◌+◌, ◌≤◌, ◌<◌, length, take, drop};
ghost use Rattle.cells.specs.Cells.{cell_at, same_word};
ghost use Rattle.numerals.specs.Numerals.{read_number};
ghost use Rattle.heads.specs.Heads.{is_passed, fault_number, edition_word, is_separator, behind_edition, is_quoted_word, separator_at, separator_in};
ghost use Rattle.heads.specs.Heads.{head_by, head_of};

use cells::{found, front, is_empty_line, is_note, next_field, same_word};
use numerals::{NumberFault, read_number};
use rowtext::FieldFault;

// What is wrong with a text, and what is told with it.
#[derive(Clone, Copy, PartialEq, Eq, Debug)]
pub enum Fault {
    Long,
    Edition,
    Kind,
    Order,
    Rows,
    Fields {
        due: u32,
        found: u32,
    },
    Cell {
        kind: u32,
        field: u32,
        fault: FieldFault,
    },
}

impl Fault {
    // Its number, by the order of the words.
    pub fn number(self) -> u32
        ensures { result ≡ fault_number self }
    {
        match self {
            Fault::Long => 1,
            Fault::Edition => 2,
            Fault::Kind => 3,
            Fault::Order => 4,
            Fault::Rows => 5,
            Fault::Fields { .. } => 6,
            Fault::Cell { fault, .. } => match fault {
                FieldFault::Unit => 7,
                FieldFault::Number(NumberFault::NoNumber) => 8,
                FieldFault::Number(NumberFault::ManyDecimals) => 9,
                FieldFault::Number(NumberFault::Large) => 10,
            },
        }
    }
}

// The first fault of a text, and its line.
#[derive(Clone, Copy, PartialEq, Eq, Debug)]
pub struct TextFault {
    pub line: u32,
    pub fault: Fault,
}

// What the first line that counts says.
#[derive(Clone, Copy, PartialEq, Eq, Debug)]
pub struct Head {
    pub edition: u32,
    pub separator: u8,
}

// A line that is passed over.
pub fn is_passed(line: &[u8], sep: u8) -> bool
    ensures { result ≡ is_passed sep line.now }
{
    is_empty_line(line) || is_note(line, sep)
}

// Whether the word stands at a place.
fn word_at(line: &[u8], at: usize) -> bool
    requires { at ≤ length line.now }
    ensures { (result ≡ same_word edition_word (take 7 (drop at line.now))) × (result ≡ true → at + 7 ≤ length line.now) }
{
    if line.len() - at < 7 {
        return false;
    }
    let end = at + 7;
    same_word(b"edition", &line[at..end])
}

// The same in double quotes.
fn quoted_at(line: &[u8], at: usize) -> bool
    requires { at ≤ length line.now }
    ensures { (result ≡ is_quoted_word (drop at line.now)) × (result ≡ true → at + 9 ≤ length line.now) }
{
    if line.len() - at < 9 {
        return false;
    }
    if line[at] != 34 {
        return false;
    }
    if line[at + 8] != 34 {
        return false;
    }
    word_at(line, at + 1)
}

// Where what stands behind the word begins; where the word does not stand there, nothing does.
fn behind_edition(line: &[u8], at: usize) -> usize
    requires { at ≤ length line.now }
    ensures { (result ≤ length line.now) × (drop result line.now ≡ behind_edition (drop at line.now)) }
{
    if word_at(line, at) {
        return at + 7;
    }
    if quoted_at(line, at) {
        return at + 9;
    }
    line.len()
}

// A comma, a semicolon or a tab.
fn is_separator(b: u8) -> bool
    ensures { result ≡ is_separator b }
{
    b == 44 || b == 59 || b == 9
}

// The separator at a place.
fn separator_at(line: &[u8], at: usize) -> Option<u8>
    requires { at ≤ length line.now }
    ensures { result ≡ separator_at (drop at line.now) }
{
    if at == line.len() {
        return None;
    }
    let b = line[at];
    if is_separator(b) { Some(b) } else { None }
}

// The separator of the file, by its first line that counts, if that is an edition line.
fn separator_in(line: &[u8]) -> Option<u8>
    ensures { result ≡ separator_in line.now }
{
    let word = front(line, 0, line.len(), 44);
    let behind = behind_edition(line, word);
    let at = front(line, behind, line.len(), 9);
    separator_at(line, at)
}

// By the fields found behind the word, and the number that the first of them says.
fn head_by(
    n: u32,
    separator: u8,
    fields: u32,
    number: Result<u32, NumberFault>,
) -> Result<Head, TextFault>
    ensures { result ≡ head_by n separator fields number }
{
    match number {
        Ok(edition) => {
            if fields == 1 {
                return Ok(Head { edition, separator });
            }
            let fault = Fault::Fields {
                due: 1,
                found: fields,
            };
            Err(TextFault { line: n, fault })
        }
        Err(_) => Err(TextFault {
            line: n,
            fault: Fault::Edition,
        }),
    }
}

// The number in the field behind the word.
fn edition_in(line: &[u8], sep: u8) -> Result<u32, NumberFault>
    ensures { result ≡ read_number false 0 (cell_at sep 1 line.now) }
{
    let word = next_field(line, 0, sep);
    let field = next_field(line, word.next, sep);
    let from = field.from;
    let to = field.to;
    read_number(&line[from..to], false, 0)
}

// Line number n, the first that counts.
pub fn head_of(n: u32, line: &[u8]) -> Result<Head, TextFault>
    requires { length line.now < 4294967296 }
    ensures { result ≡ head_of n line.now }
{
    match separator_in(line) {
        Some(sep) => {
            let fields = found(line, sep) as u32;
            head_by(n, sep, fields, edition_in(line, sep))
        }
        None => Err(TextFault {
            line: n,
            fault: Fault::Edition,
        }),
    }
}

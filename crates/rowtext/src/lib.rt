// One row of a text: its fields, from left to right, as the numbers that they say.
#![tactic(auto)]

ghost use Rattle.std.specs.Prelude.{◌≡◌, cond, ◌+◌, ◌≤◌, ◌<◌, length};
ghost use Rattle.std.proofs.lemmas.List.Edits.{sets};
ghost use Rattle.form.specs.Layout.{numbers_of};
ghost use Rattle.columns.specs.Columns.{is_unit};
ghost use Rattle.rowtext.specs.declared.FieldFault.TheVariants.{Number};
ghost use Rattle.rowtext.specs.Said.{unit_said, cell_said, first_numbers, row_said, stored_of};

use cells::{next_field, same_word};
use columns::decimals;
use form::layout::numbers;
use numerals::{NumberFault, read_number};

// Why a field says no number of its column.
#[derive(Clone, Copy, PartialEq, Eq, Debug)]
pub enum FieldFault {
    Unit,
    Number(NumberFault),
}

impl From<NumberFault> for FieldFault {
    ghost from_gives = { λ fault e. e ≡ Number fault };

    fn from(fault: NumberFault) -> FieldFault {
        FieldFault::Number(fault)
    }
}

// The first field of a row that is at fault.
#[derive(Clone, Copy, PartialEq, Eq, Debug)]
pub struct RowFault {
    pub field: u32,
    pub fault: FieldFault,
}

#[tactic(auto, unfolding(crate::specs::Said::unit_said))]
fn say_unit(cell: &[u8]) -> Result<u32, FieldFault>
    ensures { result ≡ unit_said cell.now }
{
    if same_word(b"land", cell) {
        return Ok(0);
    }
    if same_word(b"trees", cell) {
        return Ok(1);
    }
    Err(FieldFault::Unit)
}

// A stock row's unit is a word, any other field a number.
#[tactic(auto, unfolding(crate::specs::Said::cell_said, columns::specs::Columns::is_unit))]
fn say_cell(sep: u8, kind: usize, unit: u32, i: usize, cell: &[u8]) -> Result<u32, FieldFault>
    requires { i < numbers_of kind }
    ensures { result ≡ cell_said sep kind unit i cell.now }
{
    if kind == 2 && i == 1 {
        return say_unit(cell);
    }
    let places = decimals(kind, unit, i);
    let number = read_number(cell, sep != 44, places)?;
    Ok(number)
}

// The unit that the fields behind go by: a stock row's is told by its second field.
#[tactic(auto, unfolding(columns::specs::Columns::is_unit))]
fn next_unit(kind: usize, i: usize, unit: u32, number: u32) -> u32
    ensures { result ≡ cond (is_unit kind i) number unit }
{
    if kind == 2 && i == 1 { number } else { unit }
}

// The row's numbers to the room from a place on, as far as they go.
pub fn read_row(
    line: &[u8],
    sep: u8,
    kind: usize,
    room: &mut [u32],
    at: usize,
) -> Result<(), RowFault>
    requires { at + numbers_of kind ≤ length room.old }
    ensures value { result ≡ row_said sep kind line.now }
    ensures room_after { room.new ≡ sets room.old at (first_numbers sep kind line.now (stored_of kind result)) }
{
    let n = numbers(kind);
    let name = next_field(line, 0, sep);
    let mut from = name.next;
    let mut unit: u32 = 0;
    for i in 0..n {
        let field = next_field(line, from, sep);
        let start = field.from;
        let end = field.to;
        match say_cell(sep, kind, unit, i, &line[start..end]) {
            Err(fault) => {
                return Err(RowFault {
                    field: i as u32,
                    fault,
                });
            }
            Ok(number) => {
                room[at + i] = number;
                unit = next_unit(kind, i, unit, number);
            }
        }
        from = field.next;
    }
    Ok(())
}

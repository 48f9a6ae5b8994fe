// The figures as numbers for programs in C: three each, in the order of the list.
#![tactic(auto)]

ghost use Rattle.std.specs.Prelude.{◌≡◌};
ghost use Rattle.tabled.specs.Figures.{figures_answer, figures_after};

use form::{Refusal, room_for};
use listed::{NUMBERS, put_numbers};

// The numbers at the front of the room; or the rule that is broken, and the room as it was.
pub fn tabulate(bytes: &[u8], room: &mut [u64]) -> Result<(), Refusal>
    ensures value { result ≡ figures_answer bytes.now room.old }
    ensures room_after { room.new ≡ figures_after bytes.now room.old result }
{
    let f = worksheets::figures(bytes)?;
    room_for(NUMBERS, room.len())?;
    put_numbers(f, room);
    Ok(())
}

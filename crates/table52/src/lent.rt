// An entry of the table in lent memory, for programs in C.
ghost use Rattle.std.specs.Prelude.{◌≡◌, ◌≤◌, length};
ghost use Rattle.table52.specs.declared.lent.NotTold.TheVariants.{NoEntry};
ghost use Rattle.table52.specs.Lookup.{looked_up};
ghost use Rattle.table52.specs.Lent.{given_of, number_of, mark_of, with_entry, told_of, room_after};

use crate::{OffTable, look_up};
use entries52::Entry;

// Why no entry was put in lent room: there is none, or the room is too short for it.
#[derive(Clone, Copy, Debug, PartialEq, Eq)]
pub enum NotTold {
    NoEntry(OffTable),
    Short,
}

impl From<OffTable> for NotTold {
    ghost from_gives = { λ off r. r ≡ NoEntry off };

    fn from(off: OffTable) -> NotTold {
        NotTold::NoEntry(off)
    }
}

// A figure is two numbers, since C has no `Option`: whether it is given, and the figure.
fn given(f: Option<i32>) -> i32
    ensures { result ≡ given_of f }
{
    i32::from(f.is_some())
}

fn number(f: Option<i32>) -> i32
    ensures { result ≡ number_of f }
{
    f.unwrap_or(0)
}

fn mark(m: bool) -> i32
    ensures { result ≡ mark_of m }
{
    i32::from(m)
}

fn put_entry(e: Entry, room: &mut [i32])
    requires { 7 ≤ length room.old }
    ensures { room.new ≡ with_entry e room.old }
{
    let numbers = [
        given(e.area1980),
        number(e.area1980),
        given(e.area1990),
        number(e.area1990),
        given(e.rate),
        number(e.rate),
        mark(e.marked),
    ];
    room[..7].copy_from_slice(&numbers);
}

// The entry for a country and a zone at the front of the room; or why not, and the room as it was.
pub fn tell(country: u32, zone: u32, room: &mut [i32]) -> Result<(), NotTold>
    ensures value { result ≡ told_of (looked_up country zone) room.old }
    ensures room_after { room.new ≡ room_after (looked_up country zone) room.old }
{
    let e = look_up(country, zone)?;
    if room.len() < 7 {
        return Err(NotTold::Short);
    }
    put_entry(e, room);
    Ok(())
}

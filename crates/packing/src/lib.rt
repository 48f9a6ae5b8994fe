// A text packed to a return in lent room.
#![tactic(auto)]

ghost use Rattle.std.specs.Prelude.{◌≡◌, ◌≤◌, length, replicate};
ghost use Rattle.form.specs.Layout.{kinds};
ghost use Rattle.handed.specs.Rows.{write_call, blocks_written, size_written};
ghost use Rattle.texts.specs.Steps.{area_room};
ghost use Rattle.packing.specs.declared.NotPacked.TheVariants.{Faulty, Refused};
ghost use Rattle.packing.specs.Packing.{of_ruling, pack_call, bytes_packed, size_packed};

use form::{KINDS, Refusal};
use heads::TextFault;
use texts::{AREA_ROOM, enter};

// Why a text gets no return: its own first fault, or the rule of writing that its rows break.
#[derive(Clone, Copy, PartialEq, Eq, Debug)]
pub enum NotPacked {
    Faulty(TextFault),
    Refused(Refusal),
}

impl From<TextFault> for NotPacked {
    ghost from_gives = { λ fault e. e ≡ Faulty fault };

    fn from(fault: TextFault) -> NotPacked {
        NotPacked::Faulty(fault)
    }
}

impl From<Refusal> for NotPacked {
    ghost from_gives = { λ refusal e. e ≡ Refused refusal };

    fn from(refusal: Refusal) -> NotPacked {
        NotPacked::Refused(refusal)
    }
}

// Rows as they came from the text: what writing answers.
fn pack_rows(
    edition: u32,
    rows: &[u32],
    lengths: &[u32],
    room: &mut [u8],
    size: &mut [u32],
) -> Result<(), NotPacked>
    ensures value { result ≡ of_ruling (write_call edition rows.now lengths.now room.old size.old) }
    ensures room_after { room.new ≡ blocks_written edition rows.now lengths.now room.old size.old }
    ensures size_after { size.new ≡ size_written edition rows.now lengths.now room.old size.old }
{
    handed::write(edition, rows, lengths, room, size)?;
    Ok(())
}

// A text, with room for its rows and their lengths.
fn pack_by(
    text: &[u8],
    lengths: &mut [u32],
    area: &mut [u32],
    room: &mut [u8],
    size: &mut [u32],
) -> Result<(), NotPacked>
    requires { (lengths.old ≡ replicate kinds 0) × (area_room ≤ length area.old) }
    ensures value { result ≡ pack_call text.now room.old size.old }
    ensures room_after { room.new ≡ bytes_packed text.now room.old size.old }
    ensures size_after { size.new ≡ size_packed text.now room.old size.old }
{
    let entered = enter(text, lengths, area)?;
    pack_rows(entered.edition, &area[..entered.used], lengths, room, size)
}

// The return at the front of the room and its number of bytes as the first size; or the fault or the rule, and both rooms as they were.
pub fn pack(text: &[u8], room: &mut [u8], size: &mut [u32]) -> Result<(), NotPacked>
    ensures value { result ≡ pack_call text.now room.old size.old }
    ensures room_after { room.new ≡ bytes_packed text.now room.old size.old }
    ensures size_after { size.new ≡ size_packed text.now room.old size.old }
{
    let mut lengths = [0u32; KINDS];
    let mut area = [0u32; AREA_ROOM];
    pack_by(text, &mut lengths, &mut area, room, size)
}

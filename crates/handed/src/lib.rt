// Rows read and written for programs in C: the counts, or the size, in lent room beside the rows or the blocks.
#![tactic(auto)]

ghost use Rattle.std.specs.Prelude.{◌≡◌, []};
ghost use Rattle.handed.specs.Rows.{read_call, rows_read, counts_read, write_call, blocks_written, size_written};

use counted::{COUNTS_ROOM, put_counts};
use form::Refusal;

// The rows, kind after kind, at the front of their room and the counts at the front of theirs; or the rule that is broken, and both rooms as they were.
pub fn read(bytes: &[u8], rows: &mut [u32], counts: &mut [u32]) -> Result<(), Refusal>
    ensures value { result ≡ read_call bytes.now rows.old counts.old }
    ensures rows_after { rows.new ≡ rows_read bytes.now rows.old counts.old }
    ensures counts_after { counts.new ≡ counts_read bytes.now rows.old counts.old }
{
    // too little room for the counts is the lowest place of 9: the judge's answer is the whole answer
    if counts.len() < COUNTS_ROOM {
        return counted::tell(bytes, counts);
    }
    let c = rows::read(bytes, rows)?;
    put_counts(c, counts);
    Ok(())
}

// Rows that can't be written, as there is no room for the size: the first rule that they break, or else 9.
fn without_size(edition: u32, rows: &[u32], lengths: &[u32]) -> Result<(), Refusal>
    ensures { result ≡ write_call edition rows.now lengths.now [] [] }
{
    // no return fits room for no byte, so this only refuses
    let mut none: [u8; 0] = [0; 0];
    rows::write(edition, lengths, rows, &mut none)?;
    Err(Refusal {
        number: 9,
        place: 0,
    })
}

// The blocks at the front of the room and their number of bytes as the first size; or the rule that is broken, and both rooms as they were.
pub fn write(
    edition: u32,
    rows: &[u32],
    lengths: &[u32],
    room: &mut [u8],
    size: &mut [u32],
) -> Result<(), Refusal>
    ensures value { result ≡ write_call edition rows.now lengths.now room.old size.old }
    ensures room_after { room.new ≡ blocks_written edition rows.now lengths.now room.old size.old }
    ensures size_after { size.new ≡ size_written edition rows.now lengths.now room.old size.old }
{
    if size.len() < 1 {
        return without_size(edition, rows, lengths);
    }
    let n = rows::write(edition, lengths, rows, room)?;
    size[0] = n as u32;
    Ok(())
}

// The door for programs in C: each function hands on to the crate that knows its subject, and makes a number of the ruling.
// The crate door_c exports each to C, under the same name and with the same contract.
#![tactic(auto)]

ghost use Rattle.std.specs.Prelude.{◌≤◌, ◌≡◌, length};
ghost use Rattle.phrases.specs.Room.{put_of};
ghost use Rattle.report.specs.Lines.{lines_room, printed};
ghost use Rattle.explained.specs.Explained.{explained, explain_room};
ghost use Rattle.national.specs.Nation.{printed_nation};
ghost use Rattle.national.specs.Steps.{nation_room};
ghost use Rattle.tabled.specs.Figures.{figures_answer, figures_told};
ghost use Rattle.counted.specs.Counts.{judge_call, counts_judged};
ghost use Rattle.charted.specs.Subtotal.{subtotal_call, bits_told};
ghost use Rattle.weighed.specs.Heaviest.{heaviest_call, heaviest_told};
ghost use Rattle.offered.specs.Defaults.{defaults_call, defaults_after};
ghost use Rattle.handed.specs.Rows.{read_call, rows_read, counts_read, write_call, blocks_written, size_written};
ghost use Rattle.unpacked.specs.Calls.{unpack_call, text_unpacked, size_unpacked};
ghost use Rattle.packing.specs.Packing.{pack_call, bytes_packed, size_packed};
ghost use Rattle.objections.specs.Objections.{pack_why, why_room};
ghost use Rattle.door.specs.Door.{code_of, InPlace, size_of, lines_after};
ghost use Rattle.door.specs.Explain.{explain_after};
ghost use Rattle.door.specs.Nation.{nation_after};
ghost use Rattle.door.specs.Table.{table_code, table_call, table_after};
ghost use Rattle.door.specs.Texts.{pack_code, PackInPlace, why_after};

use form::Refusal;
use packing::NotPacked;
use table52::OffTable;
use table52::lent::NotTold;

fn code_of(v: Result<(), Refusal>) -> u32
    requires { InPlace v }
    ensures { result ≡ code_of v }
{
    match v {
        Ok(()) => 0,
        Err(r) => 1000 * (r.number as u32) + r.place,
    }
}

fn size_of(p: Option<usize>) -> usize
    ensures { result ≡ size_of p }
{
    p.unwrap_or(0)
}

fn code_of_text(packed: Result<(), NotPacked>) -> u32
    requires { PackInPlace packed }
    ensures { result ≡ pack_code packed }
{
    match packed {
        Ok(()) => 0,
        Err(NotPacked::Faulty(f)) => f.fault.number(),
        Err(NotPacked::Refused(r)) => 1000 * (r.number as u32) + r.place,
    }
}

// 0 and the edition and the counts at the front of the room; or the refusal, and the room as it was.
pub fn niloferq_judge(bytes: &[u8], counts: &mut [u32]) -> u32
    ensures value { result ≡ code_of (judge_call bytes.now counts.old) }
    ensures counts_after { counts.new ≡ counts_judged bytes.now counts.old }
{
    code_of(counted::tell(bytes, counts))
}

// 0 and the subtotal's bits at the front of the room; or the refusal, and the room as it was.
pub fn niloferq_subtotal(bytes: &[u8], code: u32, room: &mut [u8]) -> u32
    ensures value { result ≡ code_of (subtotal_call bytes.now code room.old) }
    ensures room_after { room.new ≡ bits_told bytes.now code room.old }
{
    code_of(charted::tell(bytes, code, room))
}

// 0 and the row that weighs most in a subtotal at the front of the room; or the refusal, and the room as it was.
pub fn niloferq_heaviest(bytes: &[u8], code: u32, room: &mut [u64]) -> u32
    ensures value { result ≡ code_of (heaviest_call bytes.now code room.old) }
    ensures room_after { room.new ≡ heaviest_told bytes.now code room.old }
{
    code_of(weighed::tell(bytes, code, room))
}

// 0 and the figures, three numbers each, at the front of the room, in the order of the lines that `sheets` prints; or the refusal, and the room as it was.
pub fn niloferq_figures(bytes: &[u8], room: &mut [u64]) -> u32
    ensures value { result ≡ code_of (figures_answer bytes.now room.old) }
    ensures room_after { room.new ≡ figures_told bytes.now room.old }
{
    code_of(tabled::tabulate(bytes, room))
}

// 0 and the default row's numbers at the front of the room; or the refusal, and the room as it was.
pub fn niloferq_defaults(room: &mut [u32]) -> u32
    ensures value { result ≡ code_of (defaults_call room.old) }
    ensures room_after { room.new ≡ defaults_after room.old (defaults_call room.old) }
{
    code_of(offered::tell(room))
}

// 0, the rows, kind after kind, at the front of their room and the counts at the front of theirs; or the refusal, and both rooms as they were.
pub fn niloferq_read(bytes: &[u8], rows: &mut [u32], counts: &mut [u32]) -> u32
    ensures value { result ≡ code_of (read_call bytes.now rows.old counts.old) }
    ensures rows_after { rows.new ≡ rows_read bytes.now rows.old counts.old }
    ensures counts_after { counts.new ≡ counts_read bytes.now rows.old counts.old }
{
    code_of(handed::read(bytes, rows, counts))
}

// 0, the blocks at the front of the room and their number of bytes as the first size; or the refusal, and both rooms as they were.
pub fn niloferq_write(
    edition: u32,
    rows: &[u32],
    lengths: &[u32],
    room: &mut [u8],
    size: &mut [u32],
) -> u32
    ensures value { result ≡ code_of (write_call edition rows.now lengths.now room.old size.old) }
    ensures room_after { room.new ≡ blocks_written edition rows.now lengths.now room.old size.old }
    ensures size_after { size.new ≡ size_written edition rows.now lengths.now room.old size.old }
{
    code_of(handed::write(edition, rows, lengths, room, size))
}

// 0 and table 5-2's entry at the front of the room; or 1 or 2 for a country or a zone off the table, or the refusal of the room, and the room as it was.
pub fn niloferq_table52(country: u32, zone: u32, room: &mut [i32]) -> u32
    ensures value { result ≡ table_code (table_call country zone room.old) }
    ensures room_after { room.new ≡ table_after country zone room.old }
{
    match table52::lent::tell(country, zone, room) {
        Ok(()) => 0,
        Err(NotTold::NoEntry(OffTable::Country)) => 1,
        Err(NotTold::NoEntry(OffTable::Zone)) => 2,
        Err(NotTold::Short) => 9000,
    }
}

// The text that `sheets` prints at the front of the room, and its length; or 0, and the room as it was, where it is too short.
pub fn niloferq_lines(bytes: &[u8], room: &mut [u8]) -> usize
    ensures value { result ≡ size_of (put_of (printed bytes.now) room.old) }
    ensures room_after { room.new ≡ lines_after bytes.now room.old }
    ensures bytes_len_bound { length (printed bytes.now) ≤ lines_room }
{
    size_of(report::lines(bytes, room))
}

// The text that `explain` prints at the front of the room, and its length; or 0, and the room as it was, where it is too short.
pub fn niloferq_explain(bytes: &[u8], room: &mut [u8]) -> usize
    ensures value { result ≡ size_of (put_of (explained bytes.now) room.old) }
    ensures room_after { room.new ≡ explain_after bytes.now room.old }
    ensures bytes_len_bound { length (explained bytes.now) ≤ explain_room }
{
    size_of(explained::explain_lines(bytes, room))
}

// The text that `nation` prints of a file of returns at the front of the room, and its length; or 0, and the room as it was, where it is too short.
pub fn niloferq_nation(bytes: &[u8], room: &mut [u8]) -> usize
    ensures value { result ≡ size_of (put_of (printed_nation bytes.now) room.old) }
    ensures room_after { room.new ≡ nation_after bytes.now room.old }
    ensures bytes_len_bound { length (printed_nation bytes.now) ≤ nation_room }
{
    size_of(national::nation(bytes, room))
}

// 0, the return of a text of rows at the front of the room and its number of bytes as the first size; or the text's fault or the refusal, and both rooms as they were.
pub fn niloferq_pack(text: &[u8], room: &mut [u8], size: &mut [u32]) -> u32
    ensures value { result ≡ pack_code (pack_call text.now room.old size.old) }
    ensures room_after { room.new ≡ bytes_packed text.now room.old size.old }
    ensures size_after { size.new ≡ size_packed text.now room.old size.old }
{
    code_of_text(packing::pack(text, room, size))
}

// Why a text of rows can't be packed at the front of the room, and the lines' length; or 0, and the room as it was, where it is too short.
pub fn niloferq_pack_why(text: &[u8], room: &mut [u8]) -> usize
    ensures value { result ≡ size_of (put_of (pack_why text.now) room.old) }
    ensures room_after { room.new ≡ why_after text.now room.old }
    ensures text_len_bound { length (pack_why text.now) ≤ why_room }
{
    size_of(objections::say_why(text, room))
}

// 0, the rows of a return as text at the front of the room and its number of bytes as the first size; or the refusal, and both rooms as they were.
pub fn niloferq_unpack(bytes: &[u8], room: &mut [u8], size: &mut [u32]) -> u32
    ensures value { result ≡ code_of (unpack_call bytes.now room.old size.old) }
    ensures room_after { room.new ≡ text_unpacked bytes.now room.old size.old }
    ensures size_after { size.new ≡ size_unpacked bytes.now room.old size.old }
{
    code_of(unpacked::unpack(bytes, room, size))
}

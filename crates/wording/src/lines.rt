// Lines of some numbers each.
ghost use Rattle.std.specs.Prelude.{◌+◌, ◌≤◌, length};
ghost use Rattle.phrases.specs.Lines.{WrittenIn, lines_text};
ghost use Rattle.wording.specs.Wording.{header_lines, due_lines, wood_lines};

use phrases::put_lines;
use phrases::text::plain;
use reasons::Header;

// A block's header, five lines.
pub fn put_header(h: Header, out: &mut [u8], at: usize) -> usize
    requires { at + 140 ≤ length out.old }
    ensures { WrittenIn 140 (lines_text (header_lines h)) out.old out.new at result }
{
    let values = [
        plain(h.kind as u64),
        plain(h.count as u64),
        plain(h.number as u64),
        plain(h.blocks as u64),
        plain(h.edition as u64),
    ];
    put_lines(b"kind count number blocks edition ", &values, out, at)
}

// What is due in place of a header.
pub fn put_due(number: u32, blocks: u32, edition: u32, out: &mut [u8], at: usize) -> usize
    requires { at + 110 ≤ length out.old }
    ensures { WrittenIn 110 (lines_text (due_lines number blocks edition)) out.old out.new at result }
{
    let values = [
        plain(number as u64),
        plain(blocks as u64),
        plain(edition as u64),
    ];
    put_lines(b"number_due blocks_due edition_first ", &values, out, at)
}

// The wood that was used, and what clearing gave.
pub fn put_wood(used: u64, cleared: u64, out: &mut [u8], at: usize) -> usize
    requires { at + 60 ≤ length out.old }
    ensures { WrittenIn 60 (lines_text (wood_lines used cleared)) out.old out.new at result }
{
    let values = [plain(used), plain(cleared)];
    put_lines(b"used cleared ", &values, out, at)
}

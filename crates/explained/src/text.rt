// The text of an explanation, written to room that is long enough for any.
ghost use Rattle.std.specs.Prelude.{◌+◌, ◌^◌, ◌≤◌, ◌++◌, length};
ghost use Rattle.decimal.specs.Digits.{WrittenAt};
ghost use Rattle.phrases.specs.Lines.{WrittenIn, spaces, lines_text};
ghost use Rattle.matter.specs.Matter.{MatterMost};
ghost use Rattle.fates.specs.Fates.{matter_lines};
ghost use Rattle.explained.specs.Explained.{weight_text, weights_lines, explained, weights_room, explain_room};

use fates::put_matter;
use heaviest::{Weight, Weights, weigh_rows};
use matter::{Matter, work_matter};
use phrases::text::{plain, put};
use phrases::{put_lines, put_refused};
use reasons::reason_of;
use wording::put_reason;

// The row that weighs most, by its two names, or the line that there is none.
fn put_weight(none: &[u8], names: &[u8], w: Weight, out: &mut [u8], at: usize) -> usize
    requires { (spaces names.now ≤ 2) × (length none.now ≤ 30) × (length names.now ≤ 40) × (at + 90 ≤ length out.old) }
    ensures { WrittenIn 90 (weight_text none.now names.now w) out.old out.new at result }
{
    if w.part == 0 {
        return put(none, out, at);
    }
    let values = [plain(w.id as u64), plain(w.part)];
    put_lines(names, &values, out, at)
}

// On site, off site, decayed.
fn put_weights(w: Weights, out: &mut [u8]) -> usize
    requires { weights_room ≤ length out.old }
    ensures { WrittenAt (lines_text (weights_lines w)) out.old out.new 0 result × (result ≤ weights_room) }
{
    let a = put_weight(
        b"heaviest_onsite none\n",
        b"heaviest_onsite heaviest_onsite_part ",
        w.onsite,
        out,
        0,
    );
    let b = put_weight(
        b"heaviest_offsite none\n",
        b"heaviest_offsite heaviest_offsite_part ",
        w.offsite,
        out,
        a,
    );
    put_weight(
        b"heaviest_decay none\n",
        b"heaviest_decay heaviest_decay_part ",
        w.decay,
        out,
        b,
    )
}

// The heaviest rows, and behind them where the cleared biomass went.
fn put_accepted(w: Weights, m: Matter, out: &mut [u8]) -> usize
    requires { MatterMost (2 ^ 80) m × (explain_room ≤ length out.old) }
    ensures { WrittenAt (lines_text (weights_lines w ++ matter_lines m)) out.old out.new 0 result × (result ≤ explain_room) }
{
    let next = put_weights(w, out);
    put_matter(m, out, next)
}

// The text of any bytes.
pub fn write_text(bytes: &[u8], out: &mut [u8]) -> usize
    requires { explain_room ≤ length out.old }
    ensures { WrittenAt (explained bytes.now) out.old out.new 0 result × (result ≤ explain_room) }
{
    match judge::judge(bytes) {
        Ok(c) => put_accepted(weigh_rows(bytes, c), work_matter(bytes, c), out),
        Err(r) => {
            let next = put_refused(r.number, r.place, out, 0);
            put_reason(reason_of(bytes, r.number, r.place), out, next)
        }
    }
}

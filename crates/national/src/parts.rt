// The lines of the national line, written to room that is long enough.
ghost use Rattle.std.specs.Prelude.{◌≡◌, ◌+◌, ◌≤◌, length};
ghost use Rattle.decimal.specs.Digits.{WrittenAt};
ghost use Rattle.phrases.specs.Lines.{WrittenIn, amounts};
ghost use Rattle.ledger.specs.Ledger.{Bounded};
ghost use Rattle.cutting.specs.Cutting.{most_returns};
ghost use Rattle.cutting.specs.declared.Stop.TheVariants.{Blocks};
ghost use Rattle.gathered.specs.Gathered.{count_of};
ghost use Rattle.national.specs.Lines.{refusal_line, stop_line, stop_text, numbers_in, totals_by, columns_text, totals_text};
ghost use Rattle.national.specs.Nation.{refusal_by, refusals_text};
ghost use Rattle.national.specs.Steps.{stop_room, columns_room, totals_room};

use cutting::Stop;
use fates::put_matter;
use form::{Counts, Refusal};
use gathered::Tally;
use ledger::{Conversion, Stocks, work_conversion, work_stocks};
use phrases::text::{plain, put, put_value, whole};
use phrases::{put_lines, put_refused};
use wide::signed::Signed;

fn put_listed(position: u32, number: u8, place: u32, out: &mut [u8], at: usize) -> usize
    requires { at + length (refusal_line (record { position = position; number = number; place = place })) ≤ length out.old }
    ensures { WrittenAt (refusal_line (record { position = position; number = number; place = place })) out.old out.new at result }
{
    let a = put(b"return ", out, at);
    let b = put_value(plain(position as u64), 32, out, a);
    put_refused(number, place, out, b)
}

// The line of a return that is refused, and nothing of one that is accepted.
pub fn put_refusal(position: u32, v: Result<Counts, Refusal>, out: &mut [u8], at: usize) -> usize
    requires { at + length (refusals_text (refusal_by position v)) ≤ length out.old }
    ensures { WrittenAt (refusals_text (refusal_by position v)) out.old out.new at result }
{
    match v {
        Ok(_) => at,
        Err(r) => put_listed(position, r.number, r.place, out, at),
    }
}

fn put_why(position: u32, why: &[u8], out: &mut [u8], at: usize) -> usize
    requires { at + length (stop_line position why.now) ≤ length out.old }
    ensures { WrittenAt (stop_line position why.now) out.old out.new at result }
{
    let a = put(b"stopped ", out, at);
    let b = put_value(plain(position as u64), 32, out, a);
    put(why, out, b)
}

fn put_blocks(position: u32, blocks: u32, out: &mut [u8], at: usize) -> usize
    requires { (position ≤ most_returns + 1) × (at + stop_room ≤ length out.old) }
    ensures { WrittenIn stop_room (stop_text position (Blocks blocks)) out.old out.new at result }
{
    let a = put_why(position, b"blocks ", out, at);
    put_value(plain(blocks as u64), 10, out, a)
}

// The line of a run that was stopped.
pub fn put_stop(position: u32, stop: Stop, out: &mut [u8], at: usize) -> usize
    requires { (position ≤ most_returns + 1) × (at + stop_room ≤ length out.old) }
    ensures { WrittenIn stop_room (stop_text position stop) out.old out.new at result }
{
    match stop {
        Stop::Whole => at,
        Stop::Blocks(n) => put_blocks(position, n, out, at),
        Stop::Short => put_why(position, b"short\n", out, at),
        Stop::Many => put_why(position, b"many\n", out, at),
    }
}

// In the order of the lines.
fn list_totals(accepted: u32, refused: u32, s: Stocks, c: Conversion) -> [Signed; 13]
    ensures { amounts result ≡ numbers_in (totals_by accepted refused s c) }
{
    [
        plain(accepted as u64),
        plain(refused as u64),
        whole(s.e.0),
        whole(s.k.0),
        whole(s.l.0),
        s.m.0,
        s.p.0,
        s.q.0,
        s.report.0,
        whole(c.onsite.0),
        whole(c.offsite.0),
        whole(c.decay.0),
        whole(c.co2.0),
    ]
}

// The counts, and the columns of the ledger.
fn put_columns(t: Tally, out: &mut [u8], at: usize) -> usize
    requires { (count_of t ≤ most_returns) × Bounded t.ledger × (at + columns_room ≤ length out.old) }
    ensures { WrittenIn columns_room (columns_text t) out.old out.new at result }
{
    let g = t.ledger;
    let values = list_totals(t.accepted, t.refused, work_stocks(g), work_conversion(g));
    put_lines(
        b"accepted refused E K L M P Q report onsite offsite decay co2 ",
        &values,
        out,
        at,
    )
}

// And behind them what became of the cleared biomass.
pub fn put_totals(t: Tally, out: &mut [u8], at: usize) -> usize
    requires { (count_of t ≤ most_returns) × Bounded t.ledger × (at + totals_room ≤ length out.old) }
    ensures { WrittenIn totals_room (totals_text t) out.old out.new at result }
{
    let next = put_columns(t, out, at);
    put_matter(t.ledger.matter, out, next)
}

// The three carbon subtotals as doubles, from the caller's own bytes.
#![tactic(auto)]

ghost use Rattle.std.specs.Prelude.{◌≡◌, ◌+◌, ◌≤◌, length};
ghost use Rattle.form.specs.Layout.{conversion, row_at};
ghost use Rattle.form.specs.Verdict.{rows, verdict_of};
ghost use Rattle.doubles.specs.Subtotals.{part_of, decay_double, subtotals_of, answer_of};
ghost use Rattle.doubles.specs.Steps.{burnt_of, double_parts_of, plus_of};

use form::{Counts, Refusal, counted_difference, four_at, row_start, two_at};
use held::Checked;

#[derive(Clone, Copy)]
pub struct Doubles {
    pub onsite: f64,
    pub offsite: f64,
    pub decay: f64,
}

// Four products, each rounded to a double: another order may give other bits.
fn part(area: u32, difference: u32, fraction: u32, oxidised: u32, carbon: u32) -> f64
    ensures { result ≡ part_of area difference fraction oxidised carbon }
{
    (area as f64) * (difference as f64) * (fraction as f64) * (oxidised as f64) * (carbon as f64)
}

// The part whose fraction, oxidised and carbon fraction stand from `at` on.
fn burnt_at(bytes: &[u8], at: usize, area: u32, difference: u32) -> f64
    requires { at + 6 ≤ length bytes.now }
    ensures { result ≡ burnt_of bytes.now at area difference }
{
    part(
        area,
        difference,
        two_at(bytes, at),
        two_at(bytes, at + 2),
        two_at(bytes, at + 4),
    )
}

// The decay of the record at `at`, from its ten-year fields.
fn decay_at(bytes: &[u8], at: usize) -> f64
    requires { at + 40 ≤ length bytes.now }
    ensures { result ≡ decay_double (row_at conversion bytes.now at) }
{
    let difference = counted_difference(two_at(bytes, at + 28), two_at(bytes, at + 30));
    part(
        four_at(bytes, at + 24),
        difference,
        two_at(bytes, at + 32),
        1000,
        two_at(bytes, at + 34),
    )
}

// The three parts of the record at `at`.
fn parts_at(bytes: &[u8], at: usize) -> Doubles
    requires { at + 40 ≤ length bytes.now }
    ensures { result ≡ double_parts_of (row_at conversion bytes.now at) }
{
    let area = four_at(bytes, at + 4);
    let difference = counted_difference(two_at(bytes, at + 8), two_at(bytes, at + 10));
    Doubles {
        onsite: burnt_at(bytes, at + 12, area, difference),
        offsite: burnt_at(bytes, at + 18, area, difference),
        decay: decay_at(bytes, at),
    }
}

fn plus(t: Doubles, p: Doubles) -> Doubles
    ensures { result ≡ plus_of t p }
{
    Doubles {
        onsite: t.onsite + p.onsite,
        offsite: t.offsite + p.offsite,
        decay: t.decay + p.decay,
    }
}

// The subtotals of judged bytes: the conversion rows stand one after the other from the first record on. No sum of totals' trait, since doubles go by their order.
pub fn add_up(bytes: &[u8], c: Counts) -> Doubles
    requires { verdict_of bytes.now ≡ Ok c }
    ensures { result ≡ subtotals_of (rows 1 bytes.now) }
{
    let n = c.conversion as usize;
    let mut t = Doubles {
        onsite: 0.0,
        offsite: 0.0,
        decay: 0.0,
    };
    for i in 0..n {
        t = plus(t, parts_at(bytes, row_start(0, i)));
    }
    t
}

// The subtotals of a checked return.
pub fn subtotals_of<'a>(c: Checked<'a>) -> Doubles
    requires { verdict_of c.bytes.now ≡ Ok c.counts }
    ensures { result ≡ subtotals_of (rows 1 c.entry.bytes.now) }
{
    add_up(c.bytes, c.counts)
}

// Bytes that were judged, held with their counts as a checked return.
fn subtotals_judged(bytes: &[u8], counts: Counts) -> Doubles
    requires { verdict_of bytes.now ≡ Ok counts }
    ensures { result ≡ subtotals_of (rows 1 bytes.now) }
{
    subtotals_of(held::hold(bytes, counts))
}

// Any bytes of any length, judged once.
pub fn subtotals(bytes: &[u8]) -> Result<Doubles, Refusal>
    ensures { result ≡ answer_of bytes.now }
{
    let counts = judge::judge(bytes)?;
    Ok(subtotals_judged(bytes, counts))
}

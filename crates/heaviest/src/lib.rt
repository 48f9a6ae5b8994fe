// The row that weighs most in each of the three carbon subtotals, from the caller's own bytes.
#![tactic(auto)]

ghost use Rattle.std.specs.Prelude.{◌≡◌};
ghost use Rattle.form.specs.Verdict.{Formed};
ghost use Rattle.heaviest.specs.Heaviest.{heavier, heavier_three, heaviest_of, weight_by, named_of, heaviest_answer};

use form::{Counts, Refusal, four_at, row_start};
use totals::{Parts, parts_at};

// A row by its id, and its exact part in a subtotal: 0 where no row has any.
#[derive(Clone, Copy)]
pub struct Weight {
    pub id: u32,
    pub part: u64,
}

// The heaviest row of each subtotal.
#[derive(Clone, Copy)]
pub struct Weights {
    pub onsite: Weight,
    pub offsite: Weight,
    pub decay: Weight,
}

// Ids rise along the rows: of equal parts the first is that of the lower id, and it stays.
fn heavier(best: Weight, id: u32, part: u64) -> Weight
    ensures { result ≡ heavier best id part }
{
    if best.part < part {
        Weight { id, part }
    } else {
        best
    }
}

// One row beside the heaviest of each subtotal.
fn weigh(best: Weights, id: u32, p: Parts) -> Weights
    ensures { result ≡ heavier_three best id p }
{
    Weights {
        onsite: heavier(best.onsite, id, p.onsite.0),
        offsite: heavier(best.offsite, id, p.offsite.0),
        decay: heavier(best.decay, id, p.decay.0),
    }
}

// One pass over the rows for all three: a row's parts are worked out once. The heaviest row is no sum, so this is no sum_rows.
pub fn weigh_rows(bytes: &[u8], c: Counts) -> Weights
    requires { Formed bytes.now c }
    ensures { result ≡ heaviest_of bytes.now }
{
    let n = c.conversion as usize;
    let mut best = Weights {
        onsite: Weight { id: 0, part: 0 },
        offsite: Weight { id: 0, part: 0 },
        decay: Weight { id: 0, part: 0 },
    };
    for i in 0..n {
        let at = row_start(0, i);
        best = weigh(best, four_at(bytes, at), parts_at(bytes, at));
    }
    best
}

fn by_code(t: Weights, code: u32) -> Weight
    ensures { result ≡ weight_by code t }
{
    if code == 0 {
        return t.onsite;
    }
    if code == 1 { t.offsite } else { t.decay }
}

// The heaviest part is 0 just where the subtotal is.
fn name_of(w: Weight) -> Option<Weight>
    ensures { Ok result ≡ named_of w }
{
    if w.part == 0 { None } else { Some(w) }
}

// Any bytes of any length and any code, judged once.
pub fn heaviest(bytes: &[u8], code: u32) -> Result<Option<Weight>, Refusal>
    ensures { result ≡ heaviest_answer bytes.now code }
{
    let counts = judge::judge(bytes)?;
    if 2 < code {
        return Err(Refusal {
            number: 11,
            place: 0,
        });
    }
    Ok(name_of(by_code(weigh_rows(bytes, counts), code)))
}

// Worksheets 5-1 to 5-5, 4-3 and 4-4, and where the cleared biomass went: the figures of a return, or its refusal.
#![tactic(auto)]

pub mod sheets;

ghost use Rattle.std.specs.Prelude.{◌≡◌};
ghost use Rattle.form.specs.Verdict.{verdict_of};
ghost use Rattle.worksheets.specs.Sheets.{by_kind, figures_of};
ghost use Rattle.worksheets.specs.Answers.{answered, outcome_of};

use crate::sheets::{Figures, gases_of, read_parameters, scattered_rows, work_abandoned};
use crops::work_crops;
use form::{Counts, Refusal};
use held::Checked;
use ledger::{enter, work_conversion, work_stocks};
use matter::work_matter;
use savannas::work_savannas;
use soils::work_soils;
use sums::{sum_abandoned, sum_harvest, sum_stocks};
use totals::sum_conversion;

// The figures of bytes that were judged before, with the counts that the judge gave.
pub fn work_out(bytes: &[u8], c: Counts) -> Figures
    requires { verdict_of bytes.now ≡ Ok c }
    ensures { result ≡ figures_of (by_kind bytes.now) }
{
    let p = read_parameters(bytes, c);
    let t = sum_conversion(bytes, c);
    let g = enter(
        sum_stocks(bytes, c),
        sum_harvest(bytes, c),
        t,
        work_matter(bytes, c),
        p.n,
    );
    let stocks = work_stocks(g);
    let conversion = work_conversion(g);
    let thinner = t.thinner;
    let gases = gases_of(g.onsite, p);
    let abandoned = work_abandoned(sum_abandoned(bytes, c));
    let savannas = work_savannas(bytes, c);
    let soils = work_soils(bytes, c);
    let crops = work_crops(bytes, c);
    let scattered = scattered_rows(c);
    let matter = g.matter;
    Figures {
        stocks,
        conversion,
        thinner,
        gases,
        abandoned,
        savannas,
        soils,
        scattered,
        matter,
        crops,
    }
}

// The figures of a checked return.
pub fn figures_of<'a>(c: Checked<'a>) -> Figures
    requires { verdict_of c.bytes.now ≡ Ok c.counts }
    ensures { result ≡ figures_of (by_kind c.entry.bytes.now) }
{
    work_out(c.bytes, c.counts)
}

// Bytes that were judged, held with their counts as a checked return.
fn figures_judged(bytes: &[u8], counts: Counts) -> Figures
    requires { verdict_of bytes.now ≡ Ok counts }
    ensures { result ≡ figures_of (by_kind bytes.now) }
{
    figures_of(held::hold(bytes, counts))
}

// Any bytes of any length: they are judged once, and worked out where they are accepted.
pub fn figures(bytes: &[u8]) -> Result<Figures, Refusal>
    ensures { result ≡ answered (outcome_of bytes.now) }
{
    let counts = judge::judge(bytes)?;
    Ok(figures_judged(bytes, counts))
}

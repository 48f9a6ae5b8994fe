// What the returns of a file add up to, return by return.
#![tactic(auto)]

ghost use Rattle.std.specs.Prelude.{◌≡◌, ◌≤◌, []};
ghost use Rattle.form.specs.Verdict.{verdict_of};
ghost use Rattle.cutting.specs.Cutting.{most_returns};
ghost use Rattle.gathered.specs.Gathered.{ledger_in, tally_of, count_of, step_by, Roomy};

use form::{Counts, Refusal};
use ledger::several::{add_ledgers, no_returns};
use ledger::{Ledger, enter};
use matter::work_matter;
use sums::{sum_harvest, sum_stocks};
use totals::sum_conversion;
use worksheets::sheets::read_parameters;

// How many returns were accepted and refused, and the ledger of the accepted ones.
#[derive(Clone, Copy)]
pub struct Tally {
    pub accepted: u32,
    pub refused: u32,
    pub ledger: Ledger,
}

// Before the first return.
pub fn start() -> Tally
    ensures { result ≡ tally_of [] }
{
    Tally {
        accepted: 0,
        refused: 0,
        ledger: no_returns(),
    }
}

// How many returns there were.
pub fn count_of(t: Tally) -> u32
    requires { count_of t ≤ most_returns }
    ensures { result ≡ count_of t }
{
    t.accepted + t.refused
}

// The ledger of an accepted return.
fn ledger_in(bytes: &[u8], c: Counts) -> Ledger
    requires { verdict_of bytes.now ≡ Ok c }
    ensures { result ≡ ledger_in bytes.now }
{
    let p = read_parameters(bytes, c);
    let t = sum_conversion(bytes, c);
    enter(
        sum_stocks(bytes, c),
        sum_harvest(bytes, c),
        t,
        work_matter(bytes, c),
        p.n,
    )
}

// One return more, by its verdict: an accepted one is added, a refused one only counted.
pub fn step(t: Tally, bytes: &[u8], v: Result<Counts, Refusal>) -> Tally
    requires { Roomy t × (verdict_of bytes.now ≡ v) }
    ensures { result ≡ step_by t bytes.now v }
{
    match v {
        Ok(c) => {
            let ledger = add_ledgers(t.ledger, ledger_in(bytes, c));
            Tally {
                accepted: t.accepted + 1,
                refused: t.refused,
                ledger,
            }
        }
        Err(_) => {
            let ledger = t.ledger;
            Tally {
                accepted: t.accepted,
                refused: t.refused + 1,
                ledger,
            }
        }
    }
}

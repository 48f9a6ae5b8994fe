// Worksheets 5-5 and 5-5A: the stocks of carbon in mineral soils, now and twenty years ago, from rows read in the caller's bytes in place, and what they change by in a year.
#![tactic(auto)]

ghost use Rattle.std.specs.Prelude.{◌≡◌, false, ◌+◌, ◌*◌, ◌^◌, ◌≤◌, ◌<◌, length};
ghost use Rattle.form.specs.Layout.{soil, row_at, above_limit};
ghost use Rattle.form.specs.Verdict.{rows, Formed};
ghost use Rattle.wide.specs.Numbers.{value};
ghost use Rattle.soils.specs.Soils.{soil_carbon, stocks, row_stocks, plus_stocks, StocksMost, gain_of, change_of, soils_of};
ghost use Rattle.soils.specs.Laws.{stocks_none, stocks_both, stocks_fit};

use form::{Counts, four_at, two_at};
use totals::adding::{AddsUp, sum_rows};
use wide::of;
use wide::signed::{Signed, difference, rounded_signed};

// Soil carbon of a hectare, in 10^-7 t.
#[derive(Clone, Copy)]
pub struct SoilCarbon(pub u64);

// A stock of soil carbon on an area, in 10^-4 t: a sum over 32 rows fits one word.
#[derive(Clone, Copy)]
pub struct SoilStock(pub u64);

// The stocks of a row, or of all rows.
#[derive(Clone, Copy)]
pub struct SoilStocks {
    pub now: SoilStock,
    pub then: SoilStock,
}

// Stocks now less stocks then, in 10^-4 t of carbon.
#[derive(Clone, Copy)]
pub struct SoilGain(pub Signed);

// What that is in one of the twenty years, in tonnes of carbon.
#[derive(Clone, Copy)]
pub struct SoilChange(pub Signed);

#[derive(Clone, Copy)]
pub struct Soils {
    pub soil: SoilGain,
    pub change: SoilChange,
}

// A row's soil carbon.
fn carbon_at(bytes: &[u8], at: usize) -> SoilCarbon
    requires at_in_bounds { at + 40 ≤ length bytes.now }
    requires at_value { above_limit soil (row_at soil bytes.now at) ≡ false }
    ensures { (result.0 ≡ soil_carbon (row_at soil bytes.now at)) × (result.0 ≤ 27 * 10 ^ 10) }
{
    let tilled = two_at(bytes, at + 16) * two_at(bytes, at + 18) * two_at(bytes, at + 20);
    SoilCarbon((tilled as u64) * (two_at(bytes, at + 22) as u64))
}

// A hectare's carbon on an area.
fn stock_on(carbon: SoilCarbon, area: u32) -> SoilStock
    requires { (carbon.0 ≤ 27 * 10 ^ 10) × (area ≤ 100000) }
    ensures { result.0 ≡ carbon.0 * area }
{
    SoilStock(carbon.0 * (area as u64))
}

// A row's stocks.
fn stocks_at(bytes: &[u8], at: usize) -> SoilStocks
    requires at_in_bounds { at + 40 ≤ length bytes.now }
    requires at_value { above_limit soil (row_at soil bytes.now at) ≡ false }
    ensures { result ≡ row_stocks (row_at soil bytes.now at) }
{
    let carbon = carbon_at(bytes, at);
    SoilStocks {
        now: stock_on(carbon, four_at(bytes, at + 8)),
        then: stock_on(carbon, four_at(bytes, at + 12)),
    }
}

// The stocks of two rows, or of more: each added to its own.
impl AddsUp for SoilStocks {
    ghost none = { stocks 0 0 };

    ghost both = { plus_stocks };

    ghost Most = { StocksMost };

    ghost Fit = { λ a b. (a.now.0 + b.now.0 < 2 ^ 64) × (a.then.0 + b.then.0 < 2 ^ 64) };

    ghost row_most = { 27 * 10 ^ 15 };

    ghost most_none = { stocks_none };

    ghost most_both = { stocks_both };

    ghost fit = { stocks_fit };

    fn nothing() -> SoilStocks {
        SoilStocks {
            now: SoilStock(0),
            then: SoilStock(0),
        }
    }

    fn plus(self, other: SoilStocks) -> SoilStocks {
        SoilStocks {
            now: SoilStock(self.now.0 + other.now.0),
            then: SoilStock(self.then.0 + other.then.0),
        }
    }
}

// A loss is below zero.
fn gained(t: SoilStocks) -> SoilGain
    ensures { result ≡ gain_of t }
{
    SoilGain(difference(of(t.now.0), of(t.then.0)))
}

// Over twenty years, and 10,000 to a tonne.
fn yearly(g: SoilGain) -> SoilChange
    requires { value g.0.size < 2 ^ 64 }
    ensures { result ≡ change_of g }
{
    SoilChange(rounded_signed(g.0, 20, 10000, 1))
}

// The sheet.
pub fn work_soils(bytes: &[u8], c: Counts) -> Soils
    requires { Formed bytes.now c }
    ensures { result ≡ soils_of (rows 7 bytes.now) }
{
    let soil = gained(sum_rows(bytes, c, 7, |at| stocks_at(bytes, at)));
    Soils {
        soil,
        change: yearly(soil),
    }
}

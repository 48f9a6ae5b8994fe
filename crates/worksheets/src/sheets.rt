// The parameters, and the worksheets together.
ghost use Rattle.std.specs.Prelude.{◌≡◌, ◌+◌, ◌^◌, ◌<◌, ◌≤◌, length};
ghost use Rattle.form.specs.Layout.{parameters, row_at};
ghost use Rattle.form.specs.Verdict.{Formed};
ghost use Rattle.wide.specs.Numbers.{value};
ghost use Rattle.worksheets.specs.Sheets.{standard, parameters_of, by_kind, given, Within, gases_by, abandoned_of, stock_rows};

use burning::{Gases, Ratios, release, work_gases};
use crops::Crops;
use form::{Counts, PARAMETERS, first_block, row_start, two_at};
use ledger::{Conversion, Stocks};
use matter::Matter;
use savannas::Savannas;
use soils::Soils;
use totals::{Carbon, Periods};
use units::{Co2, uptake_co2};
use wide::{Wide, of};

// The parameter row, in thousandths.
#[derive(Clone, Copy)]
pub struct Parameters {
    pub n: u32,
    pub ch4: u32,
    pub co: u32,
    pub nc: u32,
    pub n2o: u32,
    pub nox: u32,
}

impl Parameters {
    pub const N: u32 = 500;

    pub const CH4: u32 = 12;

    pub const CO: u32 = 60;

    pub const NC: u32 = 10;

    pub const N2O: u32 = 7;

    pub const NOX: u32 = 121;

    // The workbook's default row: offered to callers, and never put in unasked.
    pub fn defaults() -> Parameters
        ensures { result ≡ standard }
    {
        Parameters {
            n: Parameters::N,
            ch4: Parameters::CH4,
            co: Parameters::CO,
            nc: Parameters::NC,
            n2o: Parameters::N2O,
            nox: Parameters::NOX,
        }
    }
}

fn parameters_at(bytes: &[u8], at: usize) -> Parameters
    requires { at + 40 ≤ length bytes.now }
    ensures { result ≡ parameters_of (row_at parameters bytes.now at) }
{
    Parameters {
        n: two_at(bytes, at + 4),
        ch4: two_at(bytes, at + 6),
        co: two_at(bytes, at + 8),
        nc: two_at(bytes, at + 10),
        n2o: two_at(bytes, at + 12),
        nox: two_at(bytes, at + 14),
    }
}

// The return's own parameters, from its one row of them.
pub fn read_parameters(bytes: &[u8], c: Counts) -> Parameters
    requires { Formed bytes.now c }
    ensures { result ≡ given (by_kind bytes.now) }
{
    let first = first_block(c, PARAMETERS);
    parameters_at(bytes, row_start(first, 0))
}

// Worksheet 5-3, from on-site carbon alone.
pub fn gases_of(c: Carbon, p: Parameters) -> Gases
    requires { (value c.0 < 2 ^ 80) × Within p }
    ensures { result ≡ gases_by c p }
{
    let by = Ratios {
        nc: p.nc,
        ch4: p.ch4,
        co: p.co,
        n2o: p.n2o,
        nox: p.nox,
    };
    work_gases(release(c, by), 1)
}

// Worksheet 5-4.
#[derive(Clone, Copy)]
pub struct Abandoned {
    pub uptake: Carbon,
    pub co2: Co2,
}

pub fn work_abandoned(uptake: Carbon) -> Abandoned
    requires { value uptake.0 < 2 ^ 64 }
    ensures { result ≡ abandoned_of uptake }
{
    let co2 = uptake_co2(uptake);
    Abandoned { uptake, co2 }
}

// How many stock rows: a plain count, and no mass.
#[derive(Clone, Copy)]
pub struct StockRows(pub Wide);

// The rows of scattered trees, as the judge counted them.
pub fn scattered_rows(c: Counts) -> StockRows
    ensures { result ≡ stock_rows c.scattered }
{
    StockRows(of(c.scattered as u64))
}

#[derive(Clone, Copy)]
pub struct Figures {
    pub stocks: Stocks,
    pub conversion: Conversion,
    pub thinner: Periods,
    pub gases: Gases,
    pub abandoned: Abandoned,
    pub savannas: Savannas,
    pub soils: Soils,
    pub scattered: StockRows,
    pub matter: Matter,
    pub crops: Crops,
}

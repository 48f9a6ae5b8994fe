// What burning gives off: of carbon by ratios what goes off with each gas, of a row or of all rows; and the gases in tonnes.
#![tactic(auto)]

ghost use Rattle.std.specs.Prelude.{◌≡◌, ◌+◌, ◌^◌, ◌≤◌, ◌<◌, length};
ghost use Rattle.wide.specs.Numbers.{value};
ghost use Rattle.totals.specs.Laws.{amounts};
ghost use Rattle.burning.specs.Released.{Thousandths, of_carbon, of_nitrogen, ratios_at, released_of, plus, none, Room, ReleasedMost};
ghost use Rattle.burning.specs.Laws.{released_none, released_both, released_fit};
ghost use Rattle.burning.specs.Gases.{Fits, gas_of_carbon, gas_of_nitrogen, gases_of};

use form::two_at;
use totals::Carbon;
use totals::adding::{AddsUp, Mass};
use wide::rounding::rounded;
use wide::{Wide, times};

// N/C and the gases' ratios, in thousandths.
#[derive(Clone, Copy)]
pub struct Ratios {
    pub nc: u32,
    pub ch4: u32,
    pub co: u32,
    pub n2o: u32,
    pub nox: u32,
}

// What goes off with a gas: so much of the carbon, or of the nitrogen.
#[derive(Clone, Copy)]
pub struct CarbonReleased(pub Wide);

#[derive(Clone, Copy)]
pub struct NitrogenReleased(pub Wide);

// The carbon that burns, and what of it goes off with each gas: one row's, or those of all rows.
#[derive(Clone, Copy)]
pub struct Released {
    pub carbon: Carbon,
    pub ch4: CarbonReleased,
    pub co: CarbonReleased,
    pub n2o: NitrogenReleased,
    pub nox: NitrogenReleased,
}

// Tonnes of a gas.
#[derive(Clone, Copy)]
pub struct Gas(pub Wide);

#[derive(Clone, Copy)]
pub struct Gases {
    pub ch4: Gas,
    pub co: Gas,
    pub n2o: Gas,
    pub nox: Gas,
}

// The ratios that stand one after the other in a row, two bytes each.
pub fn ratios_at(bytes: &[u8], at: usize) -> Ratios
    requires { at + 10 ≤ length bytes.now }
    ensures { result ≡ ratios_at bytes.now at }
{
    Ratios {
        nc: two_at(bytes, at),
        ch4: two_at(bytes, at + 2),
        co: two_at(bytes, at + 4),
        n2o: two_at(bytes, at + 6),
        nox: two_at(bytes, at + 8),
    }
}

// What goes off of some carbon, by ratios: two words each.
pub fn release(c: Carbon, by: Ratios) -> Released
    requires { (value c.0 < 2 ^ 80) × Thousandths by }
    ensures { result ≡ released_of c by }
{
    let nitrogen = times(c.0, by.nc);
    Released {
        carbon: c,
        ch4: CarbonReleased(times(c.0, by.ch4)),
        co: CarbonReleased(times(c.0, by.co)),
        n2o: NitrogenReleased(times(nitrogen, by.n2o)),
        nox: NitrogenReleased(times(nitrogen, by.nox)),
    }
}

impl Mass for CarbonReleased {
    ghost amount = { λ m. value m.0 };

    ghost of_amount = { of_carbon };

    ghost amounts = { amounts };

    fn words(self) -> Wide {
        self.0
    }

    fn of_words(words: Wide) -> CarbonReleased {
        CarbonReleased(words)
    }
}

impl Mass for NitrogenReleased {
    ghost amount = { λ m. value m.0 };

    ghost of_amount = { of_nitrogen };

    ghost amounts = { amounts };

    fn words(self) -> Wide {
        self.0
    }

    fn of_words(words: Wide) -> NitrogenReleased {
        NitrogenReleased(words)
    }
}

// What goes off of two rows, or of more: each with its own.
impl AddsUp for Released {
    ghost none = { none };

    ghost both = { plus };

    ghost Most = { ReleasedMost };

    ghost Fit = { λ t p. Room t × Room p };

    ghost row_most = { 10 ^ 29 };

    ghost most_none = { released_none };

    ghost most_both = { released_both };

    ghost fit = { released_fit };

    fn nothing() -> Released {
        Released {
            carbon: Carbon::nothing(),
            ch4: CarbonReleased::nothing(),
            co: CarbonReleased::nothing(),
            n2o: NitrogenReleased::nothing(),
            nox: NitrogenReleased::nothing(),
        }
    }

    fn plus(self, other: Released) -> Released {
        Released {
            carbon: self.carbon.plus(other.carbon),
            ch4: self.ch4.plus(other.ch4),
            co: self.co.plus(other.co),
            n2o: self.n2o.plus(other.n2o),
            nox: self.nox.plus(other.nox),
        }
    }
}

// A gas that holds carbon: so many thirds of the carbon's weight.
fn gas_of_carbon(c: CarbonReleased, thirds: u32, finer: u32) -> Gas
    requires { (value c.0 < 2 ^ 102) × (thirds ≤ 1000) × (0 < finer) }
    ensures { result ≡ gas_of_carbon thirds c finer }
{
    Gas(rounded(times(c.0, thirds), 3000, 1000000000, finer))
}

// A gas that holds nitrogen: so many sevenths of the nitrogen's weight.
fn gas_of_nitrogen(n: NitrogenReleased, sevenths: u32, finer: u32) -> Gas
    requires { (value n.0 < 2 ^ 102) × (sevenths ≤ 1000) × (0 < finer) }
    ensures { result ≡ gas_of_nitrogen sevenths n finer }
{
    Gas(rounded(times(n.0, sevenths), 7000000, 1000000000, finer))
}

// The gases by their weights: CH4 16 and CO 28 to carbon's 12, N2O 44 to nitrogen's 28, NOx 46 to its 14.
pub fn work_gases(t: Released, finer: u32) -> Gases
    requires { (Fits t) × (0 < finer) }
    ensures { result ≡ gases_of t finer }
{
    Gases {
        ch4: gas_of_carbon(t.ch4, 4, finer),
        co: gas_of_carbon(t.co, 7, finer),
        n2o: gas_of_nitrogen(t.n2o, 11, finer),
        nox: gas_of_nitrogen(t.nox, 23, finer),
    }
}

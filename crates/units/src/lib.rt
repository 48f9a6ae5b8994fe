// The other masses. One substance becomes another only by a step named here.
#![tactic(auto)]

ghost use Rattle.std.specs.Prelude.{◌≡◌, ◌*◌, ◌^◌, ◌<◌};
ghost use Rattle.wide.specs.Numbers.{value};
ghost use Rattle.units.specs.Columns.{column_m, column_o, column_p, column_q, reported, co2_of, uptake_co2};

use totals::{Carbon, DryMatter};
use wide::rounding::rounded;
use wide::signed::{Signed, difference, minus, negated, rounded_signed, times_signed};
use wide::{Wide, times};

// Dry matter, carbon and tonnes of CO2 that may be below zero.
#[derive(Clone, Copy)]
pub struct NetDryMatter(pub Signed);

#[derive(Clone, Copy)]
pub struct NetCarbon(pub Signed);

#[derive(Clone, Copy)]
pub struct NetCo2(pub Signed);

// Tonnes of CO2.
#[derive(Clone, Copy)]
pub struct Co2(pub Wide);

// M: the wood used, less the wood that clearing gave.
pub fn net_wood(k: DryMatter, l: DryMatter) -> NetDryMatter
    requires { value k.0 < 2 ^ 64 }
    ensures { result ≡ column_m k l }
{
    NetDryMatter(difference(times(k.0, 100), l.0))
}

// O: dry matter to carbon, by N.
pub fn carbon_in(m: NetDryMatter, n: u32) -> NetCarbon
    requires { value m.0.size * n < 2 ^ 120 }
    ensures { result ≡ column_o m n }
{
    NetCarbon(times_signed(m.0, n))
}

// P: the carbon taken up, less the carbon removed.
pub fn net_carbon(e: Carbon, o: NetCarbon) -> NetCarbon
    requires { (value e.0 < 2 ^ 64) × (value o.0.size < 2 ^ 100) }
    ensures { result ≡ column_p e o }
{
    NetCarbon(minus(times(e.0, 100), o.0))
}

// Q: carbon to CO2, by 44/12.
pub fn net_co2(p: NetCarbon) -> NetCo2
    requires { value p.0.size < 2 ^ 100 }
    ensures { result ≡ column_q p }
{
    NetCo2(rounded_signed(times_signed(p.0, 11), 3000000, 1, 1))
}

// What is taken up is reported below zero, and what is given off above.
pub fn emission(q: NetCo2) -> NetCo2
    ensures { result ≡ reported q }
{
    NetCo2(negated(q.0))
}

// Carbon to CO2, by 44/12.
pub fn co2_of(c: Carbon) -> Co2
    requires { value c.0 < 2 ^ 100 }
    ensures { result ≡ co2_of c }
{
    Co2(rounded(times(c.0, 11), 3000000000, 1, 1))
}

// The same, of carbon in 10^-7 kt, as land takes it up.
pub fn uptake_co2(u: Carbon) -> Co2
    requires { value u.0 < 2 ^ 64 }
    ensures { result ≡ uptake_co2 u }
{
    Co2(rounded(times(u.0, 11), 30000, 1, 1))
}

// The columns of 5-1 and 5-2 that add up over returns, and the one step that derives the others from them.
#![tactic(auto)]

pub mod several;

ghost use Rattle.std.specs.Prelude.{◌≡◌, ◌^◌, ◌<◌, ◌≤◌};
ghost use Rattle.wide.specs.Numbers.{value};
ghost use Rattle.ledger.specs.Ledger.{entered, Bounded};
ghost use Rattle.ledger.specs.Derived.{stocks_of, conversion_of};

use matter::Matter;
use totals::adding::AddsUp;
use totals::{Carbon, DryMatter, Totals};
use units::{
    Co2, NetCarbon, NetCo2, NetDryMatter, carbon_in, co2_of, emission, net_carbon, net_co2,
    net_wood,
};

// What adds up over returns.
#[derive(Clone, Copy)]
pub struct Ledger {
    pub e: Carbon,
    pub k: DryMatter,
    pub l: DryMatter,
    pub o: NetCarbon,
    pub onsite: Carbon,
    pub offsite: Carbon,
    pub decay: Carbon,
    pub matter: Matter,
}

// Worksheet 5-1.
#[derive(Clone, Copy)]
pub struct Stocks {
    pub e: Carbon,
    pub k: DryMatter,
    pub l: DryMatter,
    pub m: NetDryMatter,
    pub o: NetCarbon,
    pub p: NetCarbon,
    pub q: NetCo2,
    pub report: NetCo2,
}

// Worksheet 5-2, but for the count of thinner periods.
#[derive(Clone, Copy)]
pub struct Conversion {
    pub onsite: Carbon,
    pub offsite: Carbon,
    pub r: Carbon,
    pub decay: Carbon,
    pub co2: Co2,
}

// One return's entry: O goes by the return's own N, so it is entered and not derived.
pub fn enter(e: Carbon, k: DryMatter, t: Totals, matter: Matter, n: u32) -> Ledger
    requires { (value k.0 < 2 ^ 64) × (value t.cleared.0 < 2 ^ 64) × (n ≤ 1000) }
    ensures { result ≡ entered e k t matter n }
{
    let l = t.cleared;
    let onsite = t.onsite;
    let offsite = t.offsite;
    let decay = t.decay;
    let o = carbon_in(net_wood(k, l), n);
    Ledger {
        e,
        k,
        l,
        o,
        onsite,
        offsite,
        decay,
        matter,
    }
}

pub fn work_stocks(g: Ledger) -> Stocks
    requires { Bounded g }
    ensures { result ≡ stocks_of g }
{
    let e = g.e;
    let k = g.k;
    let l = g.l;
    let o = g.o;
    let m = net_wood(k, l);
    let p = net_carbon(e, o);
    let q = net_co2(p);
    let report = emission(q);
    Stocks {
        e,
        k,
        l,
        m,
        o,
        p,
        q,
        report,
    }
}

pub fn work_conversion(g: Ledger) -> Conversion
    requires { Bounded g }
    ensures { result ≡ conversion_of g }
{
    let onsite = g.onsite;
    let offsite = g.offsite;
    let decay = g.decay;
    let r = onsite.plus(offsite);
    let co2 = co2_of(r.plus(decay));
    Conversion {
        onsite,
        offsite,
        r,
        decay,
        co2,
    }
}

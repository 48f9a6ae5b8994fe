// The ledgers of several returns, added up column by column.
ghost use Rattle.std.specs.Prelude.{◌≡◌, false, ◌^◌, ◌<◌};
ghost use Rattle.wide.specs.Numbers.{value};
ghost use Rattle.ledger.specs.Ledger.{none, plus};
ghost use Rattle.ledger.specs.Several.{both_removed, Addable};

use crate::Ledger;
use matter::Matter;
use totals::adding::AddsUp;
use totals::{Carbon, DryMatter};
use units::NetCarbon;
use wide::signed::Signed;
use wide::{add, of};

// The ledger of no return.
pub fn no_returns() -> Ledger
    ensures { result ≡ none }
{
    let o = Signed {
        below: false,
        size: of(0),
    };
    Ledger {
        e: Carbon::nothing(),
        k: DryMatter::nothing(),
        l: DryMatter::nothing(),
        o: NetCarbon(o),
        onsite: Carbon::nothing(),
        offsite: Carbon::nothing(),
        decay: Carbon::nothing(),
        matter: Matter::nothing(),
    }
}

// O of both: neither is below zero, so their sizes are added.
fn both_removed(a: NetCarbon, b: NetCarbon) -> NetCarbon
    requires { (a.0.below ≡ false) × (b.0.below ≡ false) × (value a.0.size < 2 ^ 90) × (value b.0.size < 2 ^ 90) }
    ensures { result ≡ both_removed a b }
{
    NetCarbon(Signed {
        below: false,
        size: add(a.0.size, b.0.size),
    })
}

pub fn add_ledgers(a: Ledger, b: Ledger) -> Ledger
    requires { Addable a × Addable b }
    ensures { result ≡ plus a b }
{
    Ledger {
        e: a.e.plus(b.e),
        k: a.k.plus(b.k),
        l: a.l.plus(b.l),
        o: both_removed(a.o, b.o),
        onsite: a.onsite.plus(b.onsite),
        offsite: a.offsite.plus(b.offsite),
        decay: a.decay.plus(b.decay),
        matter: a.matter.plus(b.matter),
    }
}

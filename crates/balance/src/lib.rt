// The rules that add rows up, in their order: 12, wood, which is worked out here, and 13, areas. Of a return's bytes here, and of rows to be written in `unwritten`.
#![tactic(auto)]

pub mod unwritten;

ghost use Rattle.std.specs.Prelude.{◌≡◌};
ghost use Rattle.form.specs.Ruling.{ruling};
ghost use Rattle.form.specs.Records.{filed};
ghost use Rattle.form.specs.Sums.{sum_rules};
ghost use Rattle.form.specs.Verdict.{rows, Formed};
ghost use Rattle.balance.specs.Wood.{wood_of, wood_rules};

use areas::rule_areas;
use form::{Counts, Refusal};
use sums::{sum_cleared, sum_harvest};
use totals::DryMatter;
use wide::{less, times};

// The wood that was used, 100 K, and the wood that clearing gave, L.
#[derive(Clone, Copy)]
pub struct Wood {
    pub used: DryMatter,
    pub cleared: DryMatter,
}

// Rule 12: equality is good.
pub fn rule_wood(w: Wood) -> Result<(), Refusal>
    ensures { result ≡ ruling (wood_rules w) }
{
    if less(w.used.0, w.cleared.0) {
        return Err(Refusal {
            number: 12,
            place: 0,
        });
    }
    Ok(())
}

// The wood of a return whose rows can be read.
pub fn weigh_wood(bytes: &[u8], c: Counts) -> Wood
    requires { Formed bytes.now c }
    ensures { result ≡ wood_of (rows 3 bytes.now) (rows 1 bytes.now) }
{
    let k = sum_harvest(bytes, c);
    let cleared = sum_cleared(bytes, c);
    Wood {
        used: DryMatter(times(k.0, 100)),
        cleared,
    }
}

// The rules that add rows up, of a return that keeps the others.
pub fn rule_sums(bytes: &[u8], c: Counts) -> Result<(), Refusal>
    requires { Formed bytes.now c }
    ensures { result ≡ ruling (sum_rules (filed bytes.now)) }
{
    rule_wood(weigh_wood(bytes, c))?;
    rule_areas(bytes, c)
}

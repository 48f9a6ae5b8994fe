// The five masses of two rows or returns, added up one by one.
ghost use Rattle.std.specs.Prelude.{◌^◌};
ghost use Rattle.matter.specs.Matter.{burned_of, no_matter, plus_burned, plus_matter, BurnedMost, MatterMost};
ghost use Rattle.matter.specs.Laws.{burned_none, burned_both, burned_fit, most_none, most_plus, matter_fit};

use crate::{Burned, Matter};
use totals::DryMatter;
use totals::adding::AddsUp;

impl AddsUp for Burned {
    ghost none = { burned_of 0 0 };

    ghost both = { plus_burned };

    ghost Most = { BurnedMost };

    ghost Fit = { λ a b. BurnedMost (2 ^ 80) a × BurnedMost (2 ^ 80) b };

    ghost row_most = { 10 ^ 16 };

    ghost most_none = { burned_none };

    ghost most_both = { burned_both };

    ghost fit = { burned_fit };

    fn nothing() -> Burned {
        Burned {
            oxidised: DryMatter::nothing(),
            charcoal: DryMatter::nothing(),
        }
    }

    fn plus(self, other: Burned) -> Burned {
        Burned {
            oxidised: self.oxidised.plus(other.oxidised),
            charcoal: self.charcoal.plus(other.charcoal),
        }
    }
}

impl AddsUp for Matter {
    ghost none = { no_matter };

    ghost both = { plus_matter };

    ghost Most = { MatterMost };

    ghost Fit = { λ a b. MatterMost (2 ^ 80) a × MatterMost (2 ^ 80) b };

    ghost row_most = { 10 ^ 16 };

    ghost most_none = { most_none };

    ghost most_both = { most_plus };

    ghost fit = { matter_fit };

    fn nothing() -> Matter {
        Matter {
            onsite: Burned::nothing(),
            offsite: Burned::nothing(),
            unburned: DryMatter::nothing(),
        }
    }

    fn plus(self, other: Matter) -> Matter {
        Matter {
            onsite: self.onsite.plus(other.onsite),
            offsite: self.offsite.plus(other.offsite),
            unburned: self.unburned.plus(other.unburned),
        }
    }
}

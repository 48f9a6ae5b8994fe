// Sums over the conversion rows, read in the caller's bytes in place.
#![tactic(auto)]

pub mod adding;

ghost use Rattle.std.specs.Prelude.{◌≡◌, ◌+◌, ◌*◌, ◌/◌, ◌%◌, ◌^◌, ◌≤◌, ◌<◌, length, false, cond};
ghost use Rattle.form.specs.Layout.{conversion, row_at, above_limit};
ghost use Rattle.form.specs.Records.{thinner, counted_difference};
ghost use Rattle.form.specs.Verdict.{rows, Formed};
ghost use Rattle.wide.specs.Numbers.{value};
ghost use Rattle.totals.specs.Columns.{decay_part, thinner_part};
ghost use Rattle.totals.specs.Masses.{dry_matter, carbon, periods};
ghost use Rattle.totals.specs.Sums.{parts_of, row_totals, no_totals, plus_totals, TotalsMost, totals_of};
ghost use Rattle.totals.specs.Laws.{amounts, totals_none, totals_both, totals_fit};

use crate::adding::{AddsUp, Mass, sum_rows};
use form::{Counts, counted_difference, four_at, two_at};
use wide::{Wide, of, times};

// Masses of one substance, each counted in the unit of its column.
#[derive(Clone, Copy)]
pub struct DryMatter(pub Wide);

#[derive(Clone, Copy)]
pub struct Carbon(pub Wide);

// How many periods of rows.
#[derive(Clone, Copy)]
pub struct Periods(pub Wide);

// A row's part in a sum: one substance, or its periods, in one word.
#[derive(Clone, Copy)]
pub struct DryMatterPart(pub u64);

#[derive(Clone, Copy)]
pub struct CarbonPart(pub u64);

#[derive(Clone, Copy)]
pub struct PeriodsPart(pub u64);

// The biomass that an area loses.
pub fn lost(area: u32, before: u32, after: u32) -> DryMatterPart
    requires { (area ≤ 1000000) × (before ≤ 10000) }
    ensures { (result.0 ≡ area * counted_difference before after) × (result.0 ≤ 10 ^ 10) }
{
    DryMatterPart((area as u64) * (counted_difference(before, after) as u64))
}

// A fraction of dry matter.
pub fn share_of(mass: DryMatterPart, fraction: u32) -> DryMatterPart
    requires { mass.0 * fraction < 2 ^ 64 }
    ensures { result.0 ≡ mass.0 * fraction }
{
    DryMatterPart(mass.0 * (fraction as u64))
}

// Dry matter to carbon, by its carbon fraction: the one step from the one to the other within a row.
pub fn carbon_of(mass: DryMatterPart, fraction: u32) -> CarbonPart
    requires { mass.0 * fraction < 2 ^ 64 }
    ensures { result.0 ≡ mass.0 * fraction }
{
    CarbonPart(mass.0 * (fraction as u64))
}

// The same where a row's carbon takes two words.
pub fn wide_carbon_of(mass: DryMatterPart, share: u32) -> Carbon
    requires { mass.0 * share < 2 ^ 120 }
    ensures { result ≡ carbon (mass.0 * share) }
{
    Carbon(times(of(mass.0), share))
}

// The carbon of what is burned: at most 10 ^ 19, so that one word holds it.
fn burned(biomass: DryMatterPart, fraction: u32, oxidised: u32, carbon: u32) -> CarbonPart
    requires { (biomass.0 ≤ 10 ^ 10) × (fraction ≤ 1000) × (oxidised ≤ 1000) × (carbon ≤ 1000) }
    ensures { result.0 ≡ biomass.0 * fraction * oxidised * carbon }
{
    carbon_of(share_of(share_of(biomass, fraction), oxidised), carbon)
}

// One conversion row's part in each sum.
#[derive(Clone, Copy)]
pub struct Parts {
    pub cleared: DryMatterPart,
    pub onsite: CarbonPart,
    pub offsite: CarbonPart,
    pub decay: CarbonPart,
    pub thinner: PeriodsPart,
}

// One row's part in decay carbon, from what was cleared in the ten years before.
fn decay_at(bytes: &[u8], at: usize) -> CarbonPart
    requires at_in_bounds { at + 40 ≤ length bytes.now }
    requires at_value { above_limit conversion (row_at conversion bytes.now at) ≡ false }
    ensures { result.0 ≡ decay_part (row_at conversion bytes.now at) }
{
    let biomass = lost(
        four_at(bytes, at + 24),
        two_at(bytes, at + 28),
        two_at(bytes, at + 30),
    );
    burned(
        biomass,
        two_at(bytes, at + 32),
        1000,
        two_at(bytes, at + 34),
    )
}

// 1 for a period that is thinner before than after, and 0 for another.
fn thinner_period(before: u32, after: u32) -> u64
    ensures { (result ≡ cond (thinner before after) 1 0) × (result ≤ 1) }
{
    if before < after { 1 } else { 0 }
}

// The row's thinner periods.
fn thinner_at(bytes: &[u8], at: usize) -> PeriodsPart
    requires { at + 40 ≤ length bytes.now }
    ensures { result.0 ≡ thinner_part (row_at conversion bytes.now at) }
{
    let one = thinner_period(two_at(bytes, at + 8), two_at(bytes, at + 10));
    let ten_years = thinner_period(two_at(bytes, at + 28), two_at(bytes, at + 30));
    PeriodsPart(one + ten_years)
}

pub fn parts_at(bytes: &[u8], at: usize) -> Parts
    requires at_in_bounds { at + 40 ≤ length bytes.now }
    requires at_value { above_limit conversion (row_at conversion bytes.now at) ≡ false }
    ensures { result ≡ parts_of (row_at conversion bytes.now at) }
{
    let biomass = lost(
        four_at(bytes, at + 4),
        two_at(bytes, at + 8),
        two_at(bytes, at + 10),
    );
    let offsite = two_at(bytes, at + 18);
    Parts {
        cleared: share_of(biomass, offsite),
        onsite: burned(
            biomass,
            two_at(bytes, at + 12),
            two_at(bytes, at + 14),
            two_at(bytes, at + 16),
        ),
        offsite: burned(
            biomass,
            offsite,
            two_at(bytes, at + 20),
            two_at(bytes, at + 22),
        ),
        decay: decay_at(bytes, at),
        thinner: thinner_at(bytes, at),
    }
}

// The sums over the conversion rows.
#[derive(Clone, Copy)]
pub struct Totals {
    pub cleared: DryMatter,
    pub onsite: Carbon,
    pub offsite: Carbon,
    pub decay: Carbon,
    pub thinner: Periods,
}

// A substance is its number in two words.
impl Mass for DryMatter {
    ghost amount = { λ m. value m.0 };

    ghost of_amount = { dry_matter };

    ghost amounts = { amounts };

    fn words(self) -> Wide {
        self.0
    }

    fn of_words(words: Wide) -> DryMatter {
        DryMatter(words)
    }
}

impl Mass for Carbon {
    ghost amount = { λ m. value m.0 };

    ghost of_amount = { carbon };

    ghost amounts = { amounts };

    fn words(self) -> Wide {
        self.0
    }

    fn of_words(words: Wide) -> Carbon {
        Carbon(words)
    }
}

impl Mass for Periods {
    ghost amount = { λ m. value m.0 };

    ghost of_amount = { periods };

    ghost amounts = { amounts };

    fn words(self) -> Wide {
        self.0
    }

    fn of_words(words: Wide) -> Periods {
        Periods(words)
    }
}

// A row's part goes to its own substance, or to periods.
impl From<DryMatterPart> for DryMatter {
    ghost from_gives = { λ part mass. mass ≡ dry_matter part.0 };

    fn from(part: DryMatterPart) -> DryMatter {
        DryMatter::of_word(part.0)
    }
}

impl From<CarbonPart> for Carbon {
    ghost from_gives = { λ part mass. mass ≡ carbon part.0 };

    fn from(part: CarbonPart) -> Carbon {
        Carbon::of_word(part.0)
    }
}

impl From<PeriodsPart> for Periods {
    ghost from_gives = { λ part mass. mass ≡ periods part.0 };

    fn from(part: PeriodsPart) -> Periods {
        Periods::of_word(part.0)
    }
}

impl From<Parts> for Totals {
    ghost from_gives = { λ parts totals. totals ≡ row_totals parts };

    fn from(parts: Parts) -> Totals {
        Totals {
            cleared: parts.cleared.into(),
            onsite: parts.onsite.into(),
            offsite: parts.offsite.into(),
            decay: parts.decay.into(),
            thinner: parts.thinner.into(),
        }
    }
}

impl AddsUp for Totals {
    ghost none = { no_totals };

    ghost both = { plus_totals };

    ghost Most = { TotalsMost };

    ghost Fit = { λ a b. TotalsMost (2 ^ 110) a × TotalsMost (2 ^ 110) b };

    ghost row_most = { 2 ^ 64 };

    ghost most_none = { totals_none };

    ghost most_both = { totals_both };

    ghost fit = { totals_fit };

    fn nothing() -> Totals {
        Totals {
            cleared: DryMatter::nothing(),
            onsite: Carbon::nothing(),
            offsite: Carbon::nothing(),
            decay: Carbon::nothing(),
            thinner: Periods::nothing(),
        }
    }

    fn plus(self, other: Totals) -> Totals {
        Totals {
            cleared: self.cleared.plus(other.cleared),
            onsite: self.onsite.plus(other.onsite),
            offsite: self.offsite.plus(other.offsite),
            decay: self.decay.plus(other.decay),
            thinner: self.thinner.plus(other.thinner),
        }
    }
}

// One pass over the rows for all five: their biomass is worked out once.
pub fn sum_conversion(bytes: &[u8], c: Counts) -> Totals
    requires { Formed bytes.now c }
    ensures { result ≡ totals_of (rows 1 bytes.now) }
{
    sum_rows(bytes, c, 1, |at| Totals::from(parts_at(bytes, at)))
}

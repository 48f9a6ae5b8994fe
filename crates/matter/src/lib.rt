// Where every tonne of cleared biomass went: burned to gas or to charcoal, on site or off, or left unburned, from rows read in the caller's bytes in place.
#![tactic(auto)]

pub mod several;

ghost use Rattle.std.specs.Prelude.{◌≡◌, false, ◌+◌, ◌*◌, ◌^◌, ◌≤◌, length};
ghost use Rattle.form.specs.Layout.{conversion, row_at, above_limit};
ghost use Rattle.form.specs.Records.{overspent};
ghost use Rattle.form.specs.Verdict.{rows, Formed};
ghost use Rattle.totals.specs.Masses.{dry_matter};
ghost use Rattle.matter.specs.Matter.{left_by, burned_of, row_matter, matter_of};

use form::{Counts, four_at, two_at};
use totals::adding::sum_rows;
use totals::{DryMatter, DryMatterPart, lost, share_of};

// What burning made of dry matter.
#[derive(Clone, Copy)]
pub struct Burned {
    pub oxidised: DryMatter,
    pub charcoal: DryMatter,
}

// The five masses, in 10^-9 kt: of a row, of a return or of several.
#[derive(Clone, Copy)]
pub struct Matter {
    pub onsite: Burned,
    pub offsite: Burned,
    pub unburned: DryMatter,
}

// What a fraction leaves of the whole, in thousandths.
fn left_by(fraction: u32) -> u32
    requires { fraction ≤ 1000 }
    ensures { (result ≡ left_by fraction) × (result ≤ 1000) }
{
    1000 - fraction
}

// A fraction of a fraction of biomass: at most 10 ^ 16, so that one word holds it.
fn mass_of(biomass: DryMatterPart, fraction: u32, share: u32) -> DryMatter
    requires { (biomass.0 ≤ 10 ^ 10) × (fraction ≤ 1000) × (share ≤ 1000) }
    ensures { result ≡ dry_matter (biomass.0 * fraction * share) }
{
    share_of(share_of(biomass, fraction), share).into()
}

// What becomes of a fraction that is burned.
fn burn(biomass: DryMatterPart, fraction: u32, oxidised: u32) -> Burned
    requires { (biomass.0 ≤ 10 ^ 10) × (fraction ≤ 1000) × (oxidised ≤ 1000) }
    ensures { result ≡ burned_of (biomass.0 * fraction * oxidised) (biomass.0 * fraction * left_by oxidised) }
{
    Burned {
        oxidised: mass_of(biomass, fraction, oxidised),
        charcoal: mass_of(biomass, fraction, left_by(oxidised)),
    }
}

// One conversion row's five parts.
fn matter_at(bytes: &[u8], at: usize) -> Matter
    requires at_in_bounds { at + 40 ≤ length bytes.now }
    requires at_value { above_limit conversion (row_at conversion bytes.now at) ≡ false }
    requires at_value_2 { overspent (row_at conversion bytes.now at) ≡ false }
    ensures { result ≡ row_matter (row_at conversion bytes.now at) }
{
    let biomass = lost(
        four_at(bytes, at + 4),
        two_at(bytes, at + 8),
        two_at(bytes, at + 10),
    );
    let onsite = two_at(bytes, at + 12);
    let offsite = two_at(bytes, at + 18);
    Matter {
        onsite: burn(biomass, onsite, two_at(bytes, at + 14)),
        offsite: burn(biomass, offsite, two_at(bytes, at + 20)),
        unburned: mass_of(biomass, left_by(onsite + offsite), 1000),
    }
}

// The five totals, in a pass of their own over the conversion rows.
pub fn work_matter(bytes: &[u8], c: Counts) -> Matter
    requires { Formed bytes.now c }
    ensures { result ≡ matter_of (rows 1 bytes.now) }
{
    sum_rows(bytes, c, 1, |at| matter_at(bytes, at))
}

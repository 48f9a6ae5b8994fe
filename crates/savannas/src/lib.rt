// Worksheet 4-3: the carbon of savannas that burn, from rows read in the caller's bytes in place, and the gases that it goes off with.
#![tactic(auto)]

ghost use Rattle.std.specs.Prelude.{◌≡◌, false, ◌+◌, ◌*◌, ◌^◌, ◌≤◌, length};
ghost use Rattle.form.specs.Layout.{savanna, row_at, above_limit};
ghost use Rattle.form.specs.Verdict.{rows, Formed};
ghost use Rattle.totals.specs.Masses.{carbon};
ghost use Rattle.burning.specs.Released.{row_of};
ghost use Rattle.savannas.specs.Savannas.{burned_mass, carbon_share, carbon_part, ratios_of, savannas_of};

use burning::{Gases, Released, ratios_at, release, work_gases};
use form::{Counts, four_at, two_at};
use totals::adding::sum_rows;
use totals::{Carbon, DryMatterPart, wide_carbon_of};

#[derive(Clone, Copy)]
pub struct Savannas {
    pub carbon: Carbon,
    pub gases: Gases,
}

// The biomass that is really burned.
fn burned_at(bytes: &[u8], at: usize) -> DryMatterPart
    requires at_in_bounds { at + 40 ≤ length bytes.now }
    requires at_value { above_limit savanna (row_at savanna bytes.now at) ≡ false }
    ensures { (result.0 ≡ burned_mass (row_at savanna bytes.now at)) × (result.0 ≤ 10 ^ 13) }
{
    let standing = (four_at(bytes, at + 4) as u64) * (two_at(bytes, at + 8) as u64);
    DryMatterPart(standing * (two_at(bytes, at + 10) as u64))
}

// How much of it is carbon that burns, live and dead together, in 10^-9.
fn share_at(bytes: &[u8], at: usize) -> u32
    requires at_in_bounds { at + 40 ≤ length bytes.now }
    requires at_value { above_limit savanna (row_at savanna bytes.now at) ≡ false }
    ensures { (result ≡ carbon_share (row_at savanna bytes.now at)) × (result ≤ 2 * 10 ^ 9) }
{
    let live = two_at(bytes, at + 12);
    let dead = 1000 - live;
    let of_live = live * two_at(bytes, at + 14) * two_at(bytes, at + 16);
    of_live + dead * two_at(bytes, at + 18) * two_at(bytes, at + 20)
}

// A row's carbon: two words.
fn carbon_at(bytes: &[u8], at: usize) -> Carbon
    requires at_in_bounds { at + 40 ≤ length bytes.now }
    requires at_value { above_limit savanna (row_at savanna bytes.now at) ≡ false }
    ensures { result ≡ carbon (carbon_part (row_at savanna bytes.now at)) }
{
    wide_carbon_of(burned_at(bytes, at), share_at(bytes, at))
}

// A row's carbon, and what of it goes off with each gas.
fn row_at(bytes: &[u8], at: usize) -> Released
    requires at_in_bounds { at + 40 ≤ length bytes.now }
    requires at_value { above_limit savanna (row_at savanna bytes.now at) ≡ false }
    ensures { result ≡ row_of carbon_part ratios_of (row_at savanna bytes.now at) }
{
    release(carbon_at(bytes, at), ratios_at(bytes, at + 22))
}

// The sheet.
pub fn work_savannas(bytes: &[u8], c: Counts) -> Savannas
    requires { Formed bytes.now c }
    ensures { result ≡ savannas_of (rows 6 bytes.now) }
{
    let t = sum_rows(bytes, c, 6, |at| row_at(bytes, at));
    let carbon = t.carbon;
    Savannas {
        carbon,
        gases: work_gases(t, 1000),
    }
}

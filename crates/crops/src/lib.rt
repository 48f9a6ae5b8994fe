// Worksheet 4-4: the carbon of crop residues that burn in the field, from rows read in the caller's bytes in place, and the gases that it goes off with.
#![tactic(auto)]

ghost use Rattle.std.specs.Prelude.{◌≡◌, false, ◌+◌, ◌^◌, ◌≤◌, length};
ghost use Rattle.form.specs.Layout.{crop, row_at, above_limit};
ghost use Rattle.form.specs.Verdict.{rows, Formed};
ghost use Rattle.totals.specs.Masses.{carbon};
ghost use Rattle.burning.specs.Released.{row_of};
ghost use Rattle.crops.specs.Crops.{burned_residue, residue_share, residue_carbon, crop_ratios, crops_of};

use burning::{Gases, Released, ratios_at, release, work_gases};
use form::{Counts, four_at, two_at};
use totals::adding::sum_rows;
use totals::{Carbon, DryMatterPart, wide_carbon_of};

#[derive(Clone, Copy)]
pub struct Crops {
    pub carbon: Carbon,
    pub gases: Gases,
}

// The dry matter of the residues that burn in the field: up to 10^16, one word.
fn residue_at(bytes: &[u8], at: usize) -> DryMatterPart
    requires at_in_bounds { at + 40 ≤ length bytes.now }
    requires at_value { above_limit crop (row_at crop bytes.now at) ≡ false }
    ensures { (result.0 ≡ burned_residue (row_at crop bytes.now at)) × (result.0 ≤ 10 ^ 16) }
{
    let residues = (four_at(bytes, at + 4) as u64) * (two_at(bytes, at + 8) as u64);
    let dry = residues * (two_at(bytes, at + 10) as u64);
    DryMatterPart(dry * (two_at(bytes, at + 12) as u64))
}

// How much of it is carbon that oxidises, in 10^-7.
fn share_at(bytes: &[u8], at: usize) -> u32
    requires at_in_bounds { at + 40 ≤ length bytes.now }
    requires at_value { above_limit crop (row_at crop bytes.now at) ≡ false }
    ensures { (result ≡ residue_share (row_at crop bytes.now at)) × (result ≤ 10 ^ 7) }
{
    two_at(bytes, at + 14) * two_at(bytes, at + 16)
}

// A row's carbon: two words.
fn carbon_at(bytes: &[u8], at: usize) -> Carbon
    requires at_in_bounds { at + 40 ≤ length bytes.now }
    requires at_value { above_limit crop (row_at crop bytes.now at) ≡ false }
    ensures { result ≡ carbon (residue_carbon (row_at crop bytes.now at)) }
{
    wide_carbon_of(residue_at(bytes, at), share_at(bytes, at))
}

// A row's carbon, and what of it goes off with each gas.
fn row_at(bytes: &[u8], at: usize) -> Released
    requires at_in_bounds { at + 40 ≤ length bytes.now }
    requires at_value { above_limit crop (row_at crop bytes.now at) ≡ false }
    ensures { result ≡ row_of residue_carbon crop_ratios (row_at crop bytes.now at) }
{
    release(carbon_at(bytes, at), ratios_at(bytes, at + 18))
}

// The sheet.
pub fn work_crops(bytes: &[u8], c: Counts) -> Crops
    requires { Formed bytes.now c }
    ensures { result ≡ crops_of (rows 8 bytes.now) }
{
    let t = sum_rows(bytes, c, 8, |at| row_at(bytes, at));
    let carbon = t.carbon;
    Crops {
        carbon,
        gases: work_gases(t, 10000),
    }
}

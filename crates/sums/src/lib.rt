// Sums of one number a row: E of the stocks, K of the harvest, L of the conversion, and worksheet 5-4's uptake of land given up by farmers.
// And, for the counts themselves, how many stock rows are of scattered trees.
#![tactic(auto)]

ghost use Rattle.std.specs.Prelude.{◌≡◌, false, ◌+◌, ◌^◌, ◌≤◌, ◌<◌, length};
ghost use Rattle.form.specs.Layout.{conversion, stock, harvest, abandoned, row_at, above_limit};
ghost use Rattle.form.specs.Verdict.{row_count, rows, counts_of, Formed};
ghost use Rattle.form.specs.Standing.{first_block};
ghost use Rattle.form.specs.Sums.{scattered_part, scattered_in, harvest_part, cleared_part, column_k, column_l};
ghost use Rattle.totals.specs.Masses.{dry_matter, carbon};
ghost use Rattle.totals.specs.Columns.{stock_part, column_e};
ghost use Rattle.totals.specs.Abandoned.{abandoned_part, uptake_total, growth_at};

use form::{Counts, byte_at, four_at, row_start, two_at, where_same};
use totals::adding::{AddsUp, sum_rows};
use totals::{Carbon, CarbonPart, DryMatter, DryMatterPart, carbon_of, lost, share_of};

// One conversion row's part in L.
fn cleared_at(bytes: &[u8], at: usize) -> DryMatterPart
    requires at_in_bounds { at + 40 ≤ length bytes.now }
    requires at_value { above_limit conversion (row_at conversion bytes.now at) ≡ false }
    ensures { result.0 ≡ cleared_part (row_at conversion bytes.now at) }
{
    let biomass = lost(
        four_at(bytes, at + 4),
        two_at(bytes, at + 8),
        two_at(bytes, at + 10),
    );
    share_of(biomass, two_at(bytes, at + 18))
}

// One stock row's part in E.
fn stock_at(bytes: &[u8], at: usize) -> CarbonPart
    requires { at + 40 ≤ length bytes.now }
    ensures { result.0 ≡ stock_part (row_at stock bytes.now at) }
{
    let grown = DryMatterPart((four_at(bytes, at + 8) as u64) * (two_at(bytes, at + 6) as u64));
    carbon_of(grown, two_at(bytes, at + 12))
}

// One harvest row's part in K.
fn harvest_at(bytes: &[u8], at: usize) -> DryMatterPart
    requires { at + 40 ≤ length bytes.now }
    ensures { result.0 ≡ harvest_part (row_at harvest bytes.now at) }
{
    let sold = (four_at(bytes, at + 4) as u64) * (two_at(bytes, at + 8) as u64);
    DryMatterPart(sold + 1000 * (four_at(bytes, at + 12) as u64 + four_at(bytes, at + 16) as u64))
}

// What an area takes up in a year: the area, its growth rate and carbon fraction stand from `at` on.
fn growth_at(bytes: &[u8], at: usize) -> CarbonPart
    requires { at + 8 ≤ length bytes.now }
    ensures { (result.0 ≡ growth_at bytes.now at) × (result.0 < 2 ^ 64) }
{
    let grown = DryMatterPart((four_at(bytes, at) as u64) * (two_at(bytes, at + 4) as u64));
    carbon_of(grown, two_at(bytes, at + 6))
}

// A row's two areas, the one abandoned for up to twenty years and the one for longer.
fn land_at(bytes: &[u8], at: usize) -> Carbon
    requires at_in_bounds { at + 40 ≤ length bytes.now }
    requires at_value { above_limit abandoned (row_at abandoned bytes.now at) ≡ false }
    ensures { result ≡ carbon (abandoned_part (row_at abandoned bytes.now at)) }
{
    let young = Carbon::from(growth_at(bytes, at + 4));
    let older = Carbon::from(growth_at(bytes, at + 12));
    young.plus(older)
}

// E: the carbon that the stocks take up.
pub fn sum_stocks(bytes: &[u8], c: Counts) -> Carbon
    requires { Formed bytes.now c }
    ensures { result ≡ carbon (column_e (rows 2 bytes.now)) }
{
    sum_rows(bytes, c, 2, |at| Carbon::from(stock_at(bytes, at)))
}

// K: the biomass that is used.
pub fn sum_harvest(bytes: &[u8], c: Counts) -> DryMatter
    requires { Formed bytes.now c }
    ensures { result ≡ dry_matter (column_k (rows 3 bytes.now)) }
{
    sum_rows(bytes, c, 3, |at| DryMatter::from(harvest_at(bytes, at)))
}

// L: the biomass that clearing gives, off site.
pub fn sum_cleared(bytes: &[u8], c: Counts) -> DryMatter
    requires { Formed bytes.now c }
    ensures { result ≡ dry_matter (column_l (rows 1 bytes.now)) }
{
    sum_rows(bytes, c, 1, |at| DryMatter::from(cleared_at(bytes, at)))
}

// The uptake.
pub fn sum_abandoned(bytes: &[u8], c: Counts) -> Carbon
    requires { Formed bytes.now c }
    ensures { result ≡ carbon (uptake_total (rows 5 bytes.now)) }
{
    sum_rows(bytes, c, 5, |at| land_at(bytes, at))
}

// 1 for a stock row of scattered trees, and 0 for one of land.
fn scattered_at(bytes: &[u8], at: usize) -> u32
    requires { at + 40 ≤ length bytes.now }
    ensures { (result ≡ scattered_part (row_at stock bytes.now at)) × (result ≤ 1) }
{
    where_same(byte_at(bytes, at + 4), 1, 1)
}

// How many stock rows are of scattered trees. This is one of the counts, so no whole counts are there to ask: the rows' first block and number are handed in.
pub fn count_scattered(bytes: &[u8], first: usize, n: usize) -> u32
    requires formed { Formed bytes.now (counts_of bytes.now) }
    requires first_value { (first ≡ first_block 2 (counts_of bytes.now)) × (n ≡ row_count 2 bytes.now) }
    ensures { result ≡ scattered_in (rows 2 bytes.now) }
{
    let mut scattered: u32 = 0;
    for i in 0..n {
        scattered += scattered_at(bytes, row_start(first, i));
    }
    scattered
}

// The lookup in table 5-2 of document 001: the forest area of 1980, of 1990 and the yearly conversion rate, by country and forest zone.
#![tactic(auto)]

pub mod lent;

ghost use Rattle.std.specs.Prelude.{◌≡◌};
ghost use Rattle.table52.specs.Lookup.{looked_up};

use entries52::{Entry, entry_at};

pub const COUNTRIES: u32 = 90;

pub const ZONES: u32 = 6;

// Why there is no entry: the number of the country or of the zone is off the table.
#[derive(Clone, Copy, Debug, PartialEq, Eq)]
pub enum OffTable {
    Country,
    Zone,
}

// The table's entry for a country and a zone, each numbered from 0 in the document's order.
#[tactic(auto, unfolding(crate::specs::Lookup::looked_up))]
pub fn look_up(country: u32, zone: u32) -> Result<Entry, OffTable>
    ensures { result ≡ looked_up country zone }
{
    if COUNTRIES <= country {
        return Err(OffTable::Country);
    }
    if ZONES <= zone {
        return Err(OffTable::Zone);
    }
    let n = (ZONES * country + zone) as usize;
    Ok(entry_at(n))
}

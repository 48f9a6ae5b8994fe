// The figures as one list, in the order in which they are printed, and as numbers.
#![tactic(auto)]

ghost use Rattle.std.specs.Prelude.{◌≡◌, cond, ◌+◌, ◌≤◌, length};
ghost use Rattle.decimal.specs.Digits.{WrittenAt};
ghost use Rattle.listed.specs.Listed.{listed, values_of, three_in, figure_numbers, numbers_room, AllTwoWords};

use wide::signed::Signed;
use worksheets::sheets::Figures;

// How many figures there are, and how many numbers they are.
pub const FIGURES: usize = 38;

pub const NUMBERS: usize = 3 * FIGURES;

// Each figure's value with its sign, in the list's order. Struct literals and no calls: so it needs no proof by hand.
pub fn list(f: Figures) -> [Signed; FIGURES]
    ensures value { result ≡ values_of (listed f) }
    ensures two_words { AllTwoWords (listed f) }
{
    let size = f.stocks.e.0;
    let e = Signed { below: false, size };
    let size = f.stocks.k.0;
    let k = Signed { below: false, size };
    let size = f.stocks.l.0;
    let l = Signed { below: false, size };
    let m = f.stocks.m.0;
    let o = f.stocks.o.0;
    let p = f.stocks.p.0;
    let q = f.stocks.q.0;
    let report = f.stocks.report.0;
    let size = f.conversion.onsite.0;
    let onsite = Signed { below: false, size };
    let size = f.conversion.offsite.0;
    let offsite = Signed { below: false, size };
    let size = f.conversion.r.0;
    let r = Signed { below: false, size };
    let size = f.conversion.decay.0;
    let decay = Signed { below: false, size };
    let size = f.conversion.co2.0;
    let co2 = Signed { below: false, size };
    let size = f.gases.ch4.0;
    let ch4 = Signed { below: false, size };
    let size = f.gases.co.0;
    let co = Signed { below: false, size };
    let size = f.gases.n2o.0;
    let n2o = Signed { below: false, size };
    let size = f.gases.nox.0;
    let nox = Signed { below: false, size };
    let size = f.abandoned.uptake.0;
    let uptake = Signed { below: false, size };
    let size = f.abandoned.co2.0;
    let uptake_co2 = Signed { below: false, size };
    let size = f.thinner.0;
    let thinner = Signed { below: false, size };
    let size = f.savannas.carbon.0;
    let savanna_carbon = Signed { below: false, size };
    let size = f.savannas.gases.ch4.0;
    let savanna_ch4 = Signed { below: false, size };
    let size = f.savannas.gases.co.0;
    let savanna_co = Signed { below: false, size };
    let size = f.savannas.gases.n2o.0;
    let savanna_n2o = Signed { below: false, size };
    let size = f.savannas.gases.nox.0;
    let savanna_nox = Signed { below: false, size };
    let soil = f.soils.soil.0;
    let soil_change = f.soils.change.0;
    let size = f.scattered.0;
    let scattered = Signed { below: false, size };
    let size = f.matter.onsite.oxidised.0;
    let oxidised_onsite = Signed { below: false, size };
    let size = f.matter.onsite.charcoal.0;
    let charcoal_onsite = Signed { below: false, size };
    let size = f.matter.offsite.oxidised.0;
    let oxidised_offsite = Signed { below: false, size };
    let size = f.matter.offsite.charcoal.0;
    let charcoal_offsite = Signed { below: false, size };
    let size = f.matter.unburned.0;
    let unburned = Signed { below: false, size };
    let size = f.crops.carbon.0;
    let crop_carbon = Signed { below: false, size };
    let size = f.crops.gases.ch4.0;
    let crop_ch4 = Signed { below: false, size };
    let size = f.crops.gases.co.0;
    let crop_co = Signed { below: false, size };
    let size = f.crops.gases.n2o.0;
    let crop_n2o = Signed { below: false, size };
    let size = f.crops.gases.nox.0;
    let crop_nox = Signed { below: false, size };
    [
        e,
        k,
        l,
        m,
        o,
        p,
        q,
        report,
        onsite,
        offsite,
        r,
        decay,
        co2,
        ch4,
        co,
        n2o,
        nox,
        uptake,
        uptake_co2,
        thinner,
        savanna_carbon,
        savanna_ch4,
        savanna_co,
        savanna_n2o,
        savanna_nox,
        soil,
        soil_change,
        scattered,
        oxidised_onsite,
        charcoal_onsite,
        oxidised_offsite,
        charcoal_offsite,
        unburned,
        crop_carbon,
        crop_ch4,
        crop_co,
        crop_n2o,
        crop_nox,
    ]
}

fn sign_of(below: bool) -> u64
    ensures { result ≡ cond below 1 0 }
{
    if below { 1 } else { 0 }
}

// A figure's sign, upper and lower word at a place; answers the next place.
fn put_three(z: Signed, room: &mut [u64], at: usize) -> usize
    requires { at + 3 ≤ length room.old }
    ensures { WrittenAt (three_in z) room.old room.new at result × (result ≡ at + 3) }
{
    room[at] = sign_of(z.below);
    room[at + 1] = z.size.hi;
    room[at + 2] = z.size.lo;
    at + 3
}

// Figure after figure, from the front of the room: three numbers each, since C has no number as large as a figure.
pub fn put_numbers(f: Figures, room: &mut [u64]) -> usize
    requires { numbers_room ≤ length room.old }
    ensures written_at { WrittenAt (figure_numbers f) room.old room.new 0 result }
    ensures all_two_words { AllTwoWords (listed f) }
{
    let values = list(f);
    let mut at: usize = 0;
    for value in values {
        at = put_three(value, room, at);
    }
    at
}

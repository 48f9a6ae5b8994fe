// The lines of a return, written to room that is always long enough.
ghost use Rattle.std.specs.Prelude.{◌≤◌, length};
ghost use Rattle.decimal.specs.Digits.{WrittenAt};
ghost use Rattle.report.specs.Lines.{lines_of, lines_room, printed};

use listed::list;
use phrases::{put_lines, put_refused};
use worksheets::sheets::Figures;

// All lines. The names stand in the list's order.
fn put_figures(f: Figures, out: &mut [u8]) -> usize
    requires { lines_room ≤ length out.old }
    ensures written_at { WrittenAt (lines_of f) out.old out.new 0 result }
    ensures f_len_bound { length (lines_of f) ≤ lines_room }
{
    let values = list(f);
    put_lines(
        b"E K L M O P Q report onsite offsite R decay co2 ch4 co n2o nox uptake uptake_co2 thinner \
savanna_carbon savanna_ch4 savanna_co savanna_n2o savanna_nox soil soil_change scattered \
oxidised_onsite charcoal_onsite oxidised_offsite charcoal_offsite unburned \
crop_carbon crop_ch4 crop_co crop_n2o crop_nox ",
        &values,
        out,
        0,
    )
}

// The text of any bytes, at the front of the room.
pub fn write_lines(bytes: &[u8], out: &mut [u8]) -> usize
    requires { lines_room ≤ length out.old }
    ensures written_at { WrittenAt (printed bytes.now) out.old out.new 0 result }
    ensures bytes_len_bound { length (printed bytes.now) ≤ lines_room }
{
    match worksheets::figures(bytes) {
        Ok(f) => put_figures(f, out),
        Err(r) => put_refused(r.number, r.place, out, 0),
    }
}

// The workbook's default parameters, for programs in C that ask for them, in lent room.
#![tactic(auto)]

ghost use Rattle.std.specs.Prelude.{◌≡◌};
ghost use Rattle.offered.specs.Defaults.{defaults_call, defaults_after};

use form::{Refusal, room_for};
use worksheets::sheets::Parameters;

// The default row's numbers at the front of the room; or the rule that is broken, and the room as it was.
pub fn tell(room: &mut [u32]) -> Result<(), Refusal>
    ensures value { result ≡ defaults_call room.old }
    ensures room_after { room.new ≡ defaults_after room.old (defaults_call room.old) }
{
    room_for(6, room.len())?;
    let p = Parameters::defaults();
    room[0] = p.n;
    room[1] = p.ch4;
    room[2] = p.co;
    room[3] = p.nc;
    room[4] = p.n2o;
    room[5] = p.nox;
    Ok(())
}

// The judge's answer for programs in C: the edition, then a count for each kind, last how many stock rows are of scattered trees, in lent room.
#![tactic(auto)]

ghost use Rattle.std.specs.Prelude.{◌≡◌, ◌≤◌, length, get_or};
ghost use Rattle.form.specs.Ruling.{on_front};
ghost use Rattle.counted.specs.Counts.{held, counts_room, judge_call, counts_judged};

use form::{Counts, KINDS, Refusal, count_of, room_for};

// The last place, and how many places there are.
const LAST: usize = KINDS + 1;

pub const COUNTS_ROOM: usize = LAST + 1;

// The edition, then one count for each kind, by their places, and behind the kinds the rows of scattered trees.
fn held_at(c: Counts, k: usize) -> u32
    ensures { result ≡ get_or (held c) k 0 }
{
    if k == 0 {
        return c.edition;
    }
    if k == LAST {
        return c.scattered;
    }
    count_of(c, k)
}

pub fn put_counts(c: Counts, room: &mut [u32])
    requires { counts_room ≤ length room.old }
    ensures { room.new ≡ on_front (held c) room.old }
{
    for k in 0..COUNTS_ROOM {
        room[k] = held_at(c, k);
    }
}

// The edition and the counts at the front of the room; or the rule that is broken, and the room as it was.
pub fn tell(bytes: &[u8], counts: &mut [u32]) -> Result<(), Refusal>
    ensures value { result ≡ judge_call bytes.now counts.old }
    ensures counts_after { counts.new ≡ counts_judged bytes.now counts.old }
{
    let c = judge::judge(bytes)?;
    room_for(COUNTS_ROOM, counts.len())?;
    put_counts(c, counts);
    Ok(())
}

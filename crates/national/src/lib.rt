// The national line: what the returns of a file add up to, and its text in lent room.
#![tactic(auto)]

mod parts;

ghost use Rattle.std.specs.Prelude.{◌≡◌, [], ◌+◌, ◌*◌, ◌≤◌, length};
ghost use Rattle.phrases.specs.Lines.{WrittenIn};
ghost use Rattle.phrases.specs.Room.{put_of, text_after};
ghost use Rattle.ledger.specs.Ledger.{Bounded};
ghost use Rattle.cutting.specs.Cutting.{most_returns};
ghost use Rattle.gathered.specs.Gathered.{tally_of, count_of, step_of, Roomy};
ghost use Rattle.national.specs.Nation.{end_text, printed_nation};
ghost use Rattle.national.specs.Steps.{line_room, end_room, nation_room, line_for, Ends, Ready, Turned};

use cutting::{Stop, cut_next};
use gathered::{Tally, count_of, step};
use phrases::put_text;

// Room that is always enough for the text.
pub const NATION_ROOM: usize = 16000;

// A run so far: what its returns add up to, and the place where its text goes on.
#[derive(Clone, Copy)]
pub struct Run {
    pub tally: Tally,
    pub at: usize,
}

// A run, and why it goes no further.
#[derive(Clone, Copy)]
pub struct Ended {
    pub run: Run,
    pub stop: Stop,
}

pub fn begin() -> Run
    ensures { (result.tally ≡ tally_of []) × (result.at ≡ 0) }
{
    Run {
        tally: gathered::start(),
        at: 0,
    }
}

// One return more: the step that both the run over a file in memory and the program take.
pub fn take_return(run: Run, bytes: &[u8], out: &mut [u8]) -> Run
    requires { Roomy run.tally × (run.at + line_room ≤ length out.old) }
    ensures tally_value { result.tally ≡ step_of run.tally bytes.now }
    ensures written_in { WrittenIn line_room (line_for run.tally bytes.now) out.old out.new run.at result.at }
{
    let t = run.tally;
    let v = judge::judge(bytes);
    let at = parts::put_refusal(count_of(t) + 1, v, out, run.at);
    let tally = step(t, bytes, v);
    Run { tally, at }
}

// One turn of a program, by the bytes that it has read: a return more, or why the run goes no further.
pub fn settle(run: Run, seen: &[u8], out: &mut [u8]) -> Result<Run, Stop>
    requires { Ready run.tally run.at × (nation_room ≤ length out.old) }
    ensures { Turned run seen.now out.old out.new result }
{
    let size = cut_next(seen, count_of(run.tally))?;
    Ok(take_return(run, &seen[..size], out))
}

// Return after return, as far as the run goes.
fn run_file(bytes: &[u8], out: &mut [u8]) -> Ended
    requires { line_room * most_returns ≤ length out.old }
    ensures { Ends bytes.now out.old out.new result.run.tally result.stop result.run.at }
{
    let mut run = begin();
    let mut from = 0;
    loop {
        match cut_next(&bytes[from..], count_of(run.tally)) {
            Ok(size) => {
                let end = from + size;
                run = take_return(run, &bytes[from..end], out);
                from = end;
            }
            Err(stop) => return Ended { run, stop },
        }
    }
}

// What comes behind the refusals: the stop, the counts and the figures.
pub fn finish(ended: Ended, out: &mut [u8]) -> usize
    requires { (count_of ended.run.tally ≤ most_returns) × Bounded ended.run.tally.ledger × (ended.run.at + end_room ≤ length out.old) }
    ensures { WrittenIn end_room (end_text ended.run.tally ended.stop) out.old out.new ended.run.at result }
{
    let t = ended.run.tally;
    let next = parts::put_stop(count_of(t) + 1, ended.stop, out, ended.run.at);
    parts::put_totals(t, out, next)
}

// The text of any file, at the front of the room.
fn write_nation(bytes: &[u8], out: &mut [u8]) -> usize
    requires { nation_room ≤ length out.old }
    ensures { WrittenIn nation_room (printed_nation bytes.now) out.old out.new 0 result }
{
    let ended = run_file(bytes, out);
    finish(ended, out)
}

// The national line of any bytes at the front of the room, and the text's length; a room too short for it is left as it was.
pub fn nation(bytes: &[u8], room: &mut [u8]) -> Option<usize>
    ensures value { result ≡ put_of (printed_nation bytes.now) room.old }
    ensures room_after { room.new ≡ text_after (printed_nation bytes.now) room.old result }
    ensures bytes_len_bound { length (printed_nation bytes.now) ≤ nation_room }
{
    put_text::<NATION_ROOM, _>(room, |out| write_nation(bytes, out))
}

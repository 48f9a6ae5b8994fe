// Reads a file of returns end to end on standard input, a return at a time, and prints the national line.
#![tactic(auto)]

ghost use Rattle.std.specs.Prelude.{◌≤◌, length, take, IfOk, IfSome};
ghost use Rattle.form.specs.Block.{longest};
ghost use Rattle.console.specs.Counts.{taken};
ghost use Rattle.national.specs.Steps.{nation_room, Ready, Ends};
ghost use Rattle.nation.specs.Turns.{TakesWanted};

use console::{Unread, put, take_from};
use cutting::{Stop, wanted};
use form::LONGEST;
use national::{Ended, NATION_ROOM, begin, finish, settle};
use std::io;

// The bytes of the next return, as far as there are any: the first six, and then as many as these say.
fn fill<R: io::Read>(input: &mut R, bytes: &mut [u8]) -> Result<usize, Unread>
    requires { longest ≤ length bytes.old }
    ensures count { taken result ≤ length bytes.new }
    ensures wanted { IfOk result (λ n. TakesWanted (R.remaining input.old) (R.remaining input.new) (take n bytes.new)) }
{
    let head = take_from(input, &mut bytes[..6])?;
    if head < 6 {
        return Ok(head);
    }
    let n = wanted(&bytes[..6]);
    match take_from(input, &mut bytes[6..n]) {
        Ok(rest) => Ok(6 + rest),
        Err(unread) => Err(Unread {
            count: 6 + unread.count,
        }),
    }
}

// Turn after turn: a return's bytes are read, and the run settles what they are, until it goes no further.
fn run_input<R: io::Read>(input: &mut R, bytes: &mut [u8], out: &mut [u8]) -> Result<Ended, Unread>
    requires { (longest ≤ length bytes.old) × (nation_room ≤ length out.old) }
    ensures ready { IfOk result (λ e. Ready e.run.tally e.run.at) }
    ensures ends { IfOk result (λ e. IfSome (R.remaining input.old) (λ s. Ends s out.old out.new e.run.tally e.stop e.run.at)) }
{
    let mut run = begin();
    loop {
        let n = fill(input, bytes)?;
        match settle(run, &bytes[..n], out) {
            Ok(next) => run = next,
            Err(stop) => return Ok(Ended { run, stop }),
        }
    }
}

// A short national line must not pass for a whole one.
fn say_stop(rt: &HostRuntime, stop: Stop) {
    if stop != Stop::Whole {
        let _ = rt.stderr().write_all(b"nation: the run was stopped before the end of the file\n");
    }
}

fn print(rt: &HostRuntime, ended: Ended, room: &mut [u8])
    requires { Ready ended.run.tally ended.run.at × (nation_room ≤ length room.old) }
{
    let n = finish(ended, room);
    put(
        rt,
        &room[..n],
        b"nation: standard output did not take all the lines\n",
    );
    say_stop(rt, ended.stop);
}

// The bytes of one return, and room for the text: no more is kept, however long the file is.
fn main(rt: HostRuntime) {
    let mut bytes = [0u8; LONGEST];
    let mut room = [0u8; NATION_ROOM];
    match run_input(&mut rt.stdin(), &mut bytes, &mut room) {
        Ok(ended) => print(&rt, ended, &mut room),
        Err(_) => {
            let _ = rt
                .stderr()
                .write_all(b"nation: the input could not be read\n");
        }
    }
}

// Standard input and output for programs that take some bytes up to a limit and print a text.
#![tactic(auto)]

ghost use Rattle.std.specs.Prelude.{◌≤◌, ◌<◌, length, take, get_or, IsTrue, IfOk};
ghost use Rattle.std.specs.Io.KnownBytes.{Consumes, Keeps, IsAtEnd};
ghost use Rattle.console.specs.Input.{TakesAll};
ghost use Rattle.console.specs.Counts.{IsPrefixLen, taken};
ghost use Rattle.console.specs.Within.{Within};

use std::io::Read;

// The input could not be read to its end; so many bytes were taken before.
#[derive(Clone, Copy, Debug, PartialEq, Eq)]
pub struct Unread {
    pub count: usize,
}

// Reads until the room is full, the input ends or a read fails. A read says by itself how far it came, so no index is counted.
fn read_full<R: Read>(input: &mut R, bytes: &mut [u8]) -> usize
    ensures count { IsPrefixLen result bytes.new }
    ensures bytes { Consumes (R.remaining input.old) (R.remaining input.new) (take result bytes.new) }
{
    let mut done = 0;
    while done < bytes.len() {
        match input.read(&mut bytes[done..]) {
            Ok(n) => {
                if n == 0 {
                    break;
                }
                done += n;
            }
            Err(_) => break,
        }
    }
    done
}

// read_full stops at the end and at a read that fails; only at the end does one more read answer 0.
fn is_at_end<R: Read>(input: &mut R) -> bool
    ensures { IsTrue result → Keeps (R.remaining input.old) (R.remaining input.new) × IsAtEnd (R.remaining input.new) }
{
    let mut next = [0u8; 1];
    match input.read(&mut next) {
        Ok(n) => n == 0,
        Err(_) => false,
    }
}

// How many bytes an input gave until it ended or the room was full.
pub fn take_from<R: Read>(input: &mut R, bytes: &mut [u8]) -> Result<usize, Unread>
    ensures count { IsPrefixLen (taken result) bytes.new }
    ensures whole { IfOk result (λ n. TakesAll (R.remaining input.old) (R.remaining input.new) n bytes.new) }
{
    let count = read_full(input, bytes);
    if count == bytes.len() || is_at_end(input) {
        Ok(count)
    } else {
        Err(Unread { count })
    }
}

// Standard input, until it ends or the room is full. Where it could not be read, `unread` is said on standard error.
pub fn take(rt: &HostRuntime, bytes: &mut [u8], unread: &[u8]) -> Result<usize, Unread>
    ensures { IsPrefixLen (taken result) bytes.new }
{
    let taken = take_from(&mut rt.stdin(), bytes);
    if taken.is_err() {
        let _ = rt.stderr().write_all(unread);
    }
    taken
}

// A text on standard output. Part of it may be out where not all was taken, and `lost` is said on standard error: write_all does not say how much.
pub fn put(rt: &HostRuntime, text: &[u8], lost: &[u8]) {
    if rt.stdout().write_all(text).is_err() {
        let _ = rt.stderr().write_all(lost);
    }
}

// The text that was put at the front of the room. A program's room is never too short for its text.
pub fn print(rt: &HostRuntime, room: &[u8], done: Option<usize>, lost: &[u8])
    requires { Within done room.now }
{
    if let Some(n) = done {
        put(rt, &room[..n], lost);
    }
}

// The same on standard error: what was asked for is not there, and this is why. Nothing is said of what standard error does not take.
pub fn complain(rt: &HostRuntime, room: &[u8], done: Option<usize>)
    requires { Within done room.now }
{
    if let Some(n) = done {
        let _ = rt.stderr().write_all(&room[..n]);
    }
}

// As many bytes from the front of the room as the first size says.
pub fn put_sized(rt: &HostRuntime, room: &[u8], size: &[u32], lost: &[u8])
    requires { (0 < length size.now) × (get_or size.now 0 0 ≤ length room.now) }
{
    let n = size[0] as usize;
    put(rt, &room[..n], lost);
}

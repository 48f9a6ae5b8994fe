// Parts of a text, each to a place in room that is known to be long enough.
ghost use Rattle.std.specs.Prelude.{◌≡◌, ◌+◌, ◌≤◌, ◌<◌, false, [], ◌∷◌, length, pos};
ghost use Rattle.wide.specs.Signs.{amount, Canonical, Holds};
ghost use Rattle.decimal.specs.Digits.{WrittenAt};
ghost use Rattle.phrases.specs.Lines.{ended_by};

use decimal::write_signed;
use wide::signed::{Signed, with_sign};
use wide::{Wide, of};

// A text, to a place; answers the next place.
pub fn put(text: &[u8], out: &mut [u8], at: usize) -> usize
    requires { at + length text.now ≤ length out.old }
    ensures { WrittenAt text.now out.old out.new at result }
{
    for i in 0..text.len() {
        out[at + i] = text[i];
    }
    at + text.len()
}

pub fn put_byte(b: u8, out: &mut [u8], at: usize) -> usize
    requires { at < length out.old }
    ensures { WrittenAt (b ∷ []) out.old out.new at result }
{
    out[at] = b;
    at + 1
}

// A value and the byte behind it.
pub fn put_value(z: Signed, end: u8, out: &mut [u8], at: usize) -> usize
    requires { (Canonical z) × (at + length (ended_by end (amount z)) ≤ length out.old) }
    ensures { WrittenAt (ended_by end (amount z)) out.old out.new at result }
{
    let next = write_signed(z, out, at);
    put_byte(end, out, next)
}

// A size, as a value that is not below zero.
pub fn whole(size: Wide) -> Signed
    ensures { result ≡ record { below = false; size = size } }
{
    Signed { below: false, size }
}

// A number without a sign.
pub fn plain(n: u64) -> Signed
    ensures { Holds result (pos n) }
{
    with_sign(false, of(n))
}

// Division by a constant beyond one word, and the rule of rounding.
ghost use Rattle.std.specs.Prelude.{◌≡◌, ◌+◌, ◌*◌, ◌/◌, ◌%◌, ◌^◌, ◌<◌};
ghost use Rattle.wide.specs.Numbers.{value, Is};
ghost use Rattle.wide.specs.Rounding.{even_of, settled, nearest};

use crate::{Wide, add, add_word, divide, less, of, times};

// A quotient and what is left of a divisor that may be wider than a word.
#[derive(Clone, Copy)]
pub struct Share {
    pub quotient: Wide,
    pub rest: Wide,
}

// x over a * b * c, by one factor after the other: 7 * 10 ^ 19 is 70 * 10 ^ 9 * 10 ^ 9.
pub fn divide_by(x: Wide, a: u32, b: u32, c: u32) -> Share
    requires { 0 < a * b * c }
    ensures { (Is result.quotient (value x / (a * b * c))) × (Is result.rest (value x % (a * b * c))) }
{
    let one = divide(x, a);
    let two = divide(one.quotient, b);
    let three = divide(two.quotient, c);
    let upper = of(three.rest * (b as u64) + two.rest);
    let quotient = three.quotient;
    let rest = add_word(times(upper, a), one.rest);
    Share { quotient, rest }
}

// The even one of q and q + 1.
fn even_of(q: Wide) -> Wide
    requires { value q + 1 < 2 ^ 120 }
    ensures { Is result (even_of (value q)) }
{
    add_word(q, q.lo % 2)
}

// THE rule of rounding, and the only place in the code that knows it.
pub fn settle(q: Wide, r: Wide, d: Wide) -> Wide
    requires { (value q + 1 < 2 ^ 120) × (value r + value r < 2 ^ 120) }
    ensures { Is result (settled (value q) (value r) (value d)) }
{
    let twice = add(r, r);
    if less(twice, d) {
        return q;
    }
    if less(d, twice) {
        return add_word(q, 1);
    }
    even_of(q)
}

// One word over a divisor, by one division where that is one word too.
fn divide_word(x: u64, d: Wide) -> Share
    requires { 0 < value d }
    ensures { (Is result.quotient (x / value d)) × (Is result.rest (x % value d)) }
{
    if d.hi == 0 {
        let quotient = of(x / d.lo);
        let rest = of(x % d.lo);
        return Share { quotient, rest };
    }
    let quotient = of(0);
    let rest = of(x);
    Share { quotient, rest }
}

// x over a * b * c, rounded.
pub fn rounded(x: Wide, a: u32, b: u32, c: u32) -> Wide
    requires { (0 < a * b * c) × (value x + 1 < 2 ^ 120) }
    ensures { Is result (nearest (value x) (a * b * c)) }
{
    let d = times(of((a as u64) * (b as u64)), c);
    if x.hi == 0 {
        let w = divide_word(x.lo, d);
        return settle(w.quotient, w.rest, d);
    }
    let s = divide_by(x, a, b, c);
    settle(s.quotient, s.rest, d)
}

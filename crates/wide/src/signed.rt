// Numbers with a sign.
ghost use Rattle.std.specs.Prelude.{◌+◌, ◌*◌, ◌^◌, ◌<◌, pos, ◌-ℤ◌, ◌*ℤ◌, neg_ℤ};
ghost use Rattle.wide.specs.Numbers.{value};
ghost use Rattle.wide.specs.Signs.{amount, sized, Holds, nearest_z};

use crate::rounding::rounded;
use crate::{Wide, add, is_zero, less, sub, times};

// Below zero, or not, and how far from it.
#[derive(Clone, Copy)]
pub struct Signed {
    pub below: bool,
    pub size: Wide,
}

// The one place where a sign is given: zero is never below zero.
pub fn with_sign(below: bool, size: Wide) -> Signed
    ensures { Holds result (sized below (value size)) }
{
    if is_zero(size) {
        Signed { below: false, size }
    } else {
        Signed { below, size }
    }
}

// a - b
pub fn difference(a: Wide, b: Wide) -> Signed
    ensures { Holds result (pos (value a) -ℤ pos (value b)) }
{
    if less(a, b) {
        with_sign(true, sub(b, a))
    } else {
        with_sign(false, sub(a, b))
    }
}

// a - s
pub fn minus(a: Wide, s: Signed) -> Signed
    requires { value a + value s.size < 2 ^ 120 }
    ensures { Holds result (pos (value a) -ℤ amount s) }
{
    if s.below {
        with_sign(false, add(a, s.size))
    } else {
        difference(a, s.size)
    }
}

// -s
pub fn negated(s: Signed) -> Signed
    ensures { Holds result (neg_ℤ (amount s)) }
{
    with_sign(!s.below, s.size)
}

// s * k
pub fn times_signed(s: Signed, k: u32) -> Signed
    requires { value s.size * k < 2 ^ 120 }
    ensures { Holds result (amount s *ℤ pos k) }
{
    with_sign(s.below, times(s.size, k))
}

// s over a * b * c, rounded: the rule acts on the size, so it is one for both signs.
pub fn rounded_signed(s: Signed, a: u32, b: u32, c: u32) -> Signed
    requires { (0 < a * b * c) × (value s.size + 1 < 2 ^ 120) }
    ensures { Holds result (nearest_z (amount s) (a * b * c)) }
{
    with_sign(s.below, rounded(s.size, a, b, c))
}

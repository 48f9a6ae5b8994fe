// Exact numbers beyond one word.
#![tactic(auto)]

pub mod rounding;
pub mod signed;

ghost use Rattle.std.specs.Prelude.{◌≡◌, ◌+◌, ◌-◌, ◌*◌, ◌/◌, ◌%◌, ◌^◌, ◌<◌, ◌≤◌, ◌==◌, nat_lt};
ghost use Rattle.wide.specs.Numbers.{value, Is};

// A number in two words. Sums and products are kept below 2 ^ 120, so that no carry out of the upper word is lost.
#[derive(Clone, Copy)]
pub struct Wide {
    pub lo: u64,
    pub hi: u64,
}

pub fn of(x: u64) -> Wide
    ensures { Is result x }
{
    Wide { lo: x, hi: 0 }
}

// The lower word wraps, and its carry goes up: a wrapped sum is below each summand.
pub fn add(a: Wide, b: Wide) -> Wide
    requires { value a + value b < 2 ^ 120 }
    ensures { Is result (value a + value b) }
{
    let lo = std::num::wrapping_add_u64(a.lo, b.lo);
    if lo < a.lo {
        Wide {
            lo,
            hi: a.hi + b.hi + 1,
        }
    } else {
        Wide {
            lo,
            hi: a.hi + b.hi,
        }
    }
}

pub fn add_word(a: Wide, x: u64) -> Wide
    requires { value a + x < 2 ^ 120 }
    ensures { Is result (value a + x) }
{
    add(a, of(x))
}

pub fn less(a: Wide, b: Wide) -> bool
    ensures { result ≡ nat_lt (value a) (value b) }
{
    if a.hi == b.hi {
        a.lo < b.lo
    } else {
        a.hi < b.hi
    }
}

pub fn is_zero(a: Wide) -> bool
    ensures { result ≡ (value a == 0) }
{
    less(a, of(1))
}

// The lower word borrows where it is too small.
pub fn sub(a: Wide, b: Wide) -> Wide
    requires { value b ≤ value a }
    ensures { Is result (value a - value b) }
{
    if a.lo < b.lo {
        Wide {
            lo: 18446744073709551615 - b.lo + a.lo + 1,
            hi: a.hi - b.hi - 1,
        }
    } else {
        Wide {
            lo: a.lo - b.lo,
            hi: a.hi - b.hi,
        }
    }
}

// By columns of 32 bits, so that no product wraps.
pub fn times(a: Wide, k: u32) -> Wide
    requires { value a * k < 2 ^ 120 }
    ensures { Is result (value a * k) }
{
    let m = k as u64;
    let p = a.lo % 4294967296 * m;
    let q = a.lo / 4294967296 * m + p / 4294967296;
    Wide {
        lo: q % 4294967296 * 4294967296 + p % 4294967296,
        hi: a.hi * m + q / 4294967296,
    }
}

// A quotient and what is left.
#[derive(Clone, Copy)]
pub struct Parts {
    pub quotient: Wide,
    pub rest: u64,
}

// Long division: the upper word, then the lower one by its two halves.
pub fn divide(x: Wide, d: u32) -> Parts
    requires { 0 < d }
    ensures { (Is result.quotient (value x / d)) × (result.rest ≡ value x % d) }
{
    let m = d as u64;
    let first = x.hi % m * 4294967296 + x.lo / 4294967296;
    let second = first % m * 4294967296 + x.lo % 4294967296;
    let quotient = Wide {
        lo: first / m * 4294967296 + second / m,
        hi: x.hi / m,
    };
    Parts {
        quotient,
        rest: second % m,
    }
}

// Rules 1 to 3: the length, and each block's check and header.
#![tactic(auto)]

ghost use Rattle.std.specs.Prelude.{◌≡◌, ◌<◌};
ghost use Rattle.form.specs.Block.{blocks, bad_length, bad_check, bad_header};

use form::{LONGEST, byte_at, check_due, four_at, last_kind, two_at};

pub fn bad_length(bytes: &[u8]) -> bool
    ensures { result ≡ bad_length bytes.now }
{
    let n = bytes.len();
    (n == 0) | (LONGEST < n) | (n % 512 != 0)
}

pub fn bad_check(bytes: &[u8], b: usize) -> bool
    requires { b < blocks bytes.now }
    ensures { result ≡ bad_check bytes.now b }
{
    four_at(bytes, 512 * b + 508) != check_due(bytes, b)
}

pub fn bad_header(bytes: &[u8], b: usize) -> bool
    requires { b < blocks bytes.now }
    ensures { result ≡ bad_header bytes.now b }
{
    let kind = byte_at(bytes, 512 * b);
    let edition = two_at(bytes, 512 * b + 6);
    let last = last_kind(edition);
    (kind < 1)
        | (last < kind)
        | (two_at(bytes, 512 * b + 2) as usize != b)
        | (two_at(bytes, 512 * b + 4) as usize != bytes.len() / 512)
        | !(0 < last)
        | (edition != two_at(bytes, 6))
}

// A decimal number read from the bytes of a text field.
#![tactic(auto)]

ghost use Rattle.std.specs.Prelude.{◌≡◌, ◌+◌, ◌-◌, ◌*◌, ◌^◌, ◌≤◌, ◌<◌, length, drop};
ghost use Rattle.numerals.specs.Numerals.{is_digit, is_mark, digits_in, with_digits, only_digits, is_number, behind_mark, capped};
ghost use Rattle.numerals.specs.Numerals.{unless_large, read_parts, read_number};

// Why a field says no number of units.
#[derive(Clone, Copy, PartialEq, Eq, Debug)]
pub enum NumberFault {
    NoNumber,
    ManyDecimals,
    Large,
}

#[tactic(auto, unfolding(crate::specs::Numerals::is_digit))]
fn is_digit(b: u8) -> bool
    ensures { result ≡ is_digit b }
{
    48 <= b && b <= 57
}

#[tactic(auto, unfolding(crate::specs::Numerals::is_mark))]
fn is_mark(b: u8, commas: bool) -> bool
    ensures { result ≡ is_mark commas b }
{
    b == 46 || commas && b == 44
}

// What a digit adds.
fn digit_value(b: u8) -> u64
    requires { 48 ≤ b }
    ensures { (result ≡ b - 48) × (result < 256) }
{
    (b - 48) as u64
}

// Every number above 4,294,967,295 is too large: one stands for all of them, so that a sum of any length fits.
fn cap(n: u64) -> u64
    ensures { (result ≡ capped n) × (result ≤ 4294967296) }
{
    if n < 4294967296 { n } else { 4294967296 }
}

// How many digits stand at the front.
fn count_digits(text: &[u8]) -> usize
    ensures { (result ≡ length (digits_in text.now)) × (result ≤ length text.now) }
{
    text.iter().take_while(|b| is_digit(**b)).count()
}

// The number n with the digits at the front behind its own.
fn add_digits(n: u64, text: &[u8]) -> u64
    requires { n ≤ 4294967296 }
    ensures { (result ≡ capped (with_digits n (digits_in text.now))) × (result ≤ 4294967296) }
{
    let mut value = n;
    for k in 0..text.len() {
        let b = text[k];
        if !is_digit(b) {
            return value;
        }
        value = cap(10 * value + digit_value(b));
    }
    value
}

// Times ten for each decimal that is missing.
fn fill(n: u64, missing: u32) -> u64
    requires { n ≤ 4294967296 }
    ensures { (result ≡ capped (n * 10 ^ missing)) × (result ≤ 4294967296) }
{
    let mut value = n;
    for k in 0..missing {
        value = cap(value * 10);
    }
    value
}

fn unless_large(n: u64) -> Result<u32, NumberFault>
    ensures { result ≡ unless_large n }
{
    if 4294967295 < n {
        return Err(NumberFault::Large);
    }
    Ok(n as u32)
}

fn only_digits(text: &[u8]) -> bool
    ensures { result ≡ only_digits text.now }
{
    let n = count_digits(text);
    0 < n && n == text.len()
}

fn is_number(field: &[u8], commas: bool) -> bool
    ensures { result ≡ is_number commas field.now }
{
    let whole = count_digits(field);
    if whole == field.len() {
        return 0 < whole;
    }
    if whole == 0 {
        return false;
    }
    if !is_mark(field[whole], commas) {
        return false;
    }
    let behind = whole + 1;
    only_digits(&field[behind..])
}

// Where the decimals start: behind the mark, or at the end.
fn decimals_start(field: &[u8]) -> usize
    ensures { (result ≤ length field.now) × (drop result field.now ≡ behind_mark field.now) }
{
    let whole = count_digits(field);
    if whole == field.len() {
        return whole;
    }
    whole + 1
}

// By the digits before the mark and those behind it.
fn read_parts(whole: &[u8], behind: &[u8], decimals: u32) -> Result<u32, NumberFault>
    ensures { result ≡ read_parts decimals (digits_in whole.now) (digits_in behind.now) }
{
    let given = count_digits(behind);
    if (decimals as usize) < given {
        return Err(NumberFault::ManyDecimals);
    }
    let value = add_digits(add_digits(0, whole), behind);
    unless_large(fill(value, decimals - given as u32))
}

// The units that a field says, with so many decimals; commas are marks too, or not.
pub fn read_number(field: &[u8], commas: bool, decimals: u32) -> Result<u32, NumberFault>
    ensures { result ≡ read_number commas decimals field.now }
{
    if !is_number(field, commas) {
        return Err(NumberFault::NoNumber);
    }
    let start = decimals_start(field);
    read_parts(field, &field[start..], decimals)
}

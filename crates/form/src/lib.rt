// What a return is: the types that the definitions speak of, and numbers in the caller's bytes, read in place.
#![tactic(auto)]

pub mod layout;

ghost use Rattle.std.specs.Prelude.{◌≡◌, ℕ, Bool, cond, ltb, ◌+◌, ◌*◌, ◌/◌, ◌%◌, ◌^◌, ◌≤◌, ◌<◌, length, get_or, eqb};
ghost use Rattle.form.specs.First.{first};
ghost use Rattle.form.specs.Refusals.{Refused, Clean};
ghost use Rattle.form.specs.Ruling.{refuse};
ghost use Rattle.form.specs.Bytes.{byte_at, number, stray_in};
ghost use Rattle.form.specs.Edition.{last_kind};
ghost use Rattle.form.specs.Block.{record_at, check_due};
ghost use Rattle.form.specs.Records.{counted_difference, record_numbers};
ghost use Rattle.form.specs.Verdict.{count_in};
ghost use Rattle.form.specs.Standing.{blocks_for, first_block};
ghost use Rattle.form.specs.Steps.{Few, passed_over};

// How many kinds there are, the most blocks of a return, and its most bytes. Every bound follows from the first.
pub const KINDS: usize = 8;

// The parameters' kind, of which there is always one row, with no id.
pub const PARAMETERS: usize = 4;

pub const MOST_BLOCKS: usize = 3 * (KINDS - 1) + 1;

pub const LONGEST: usize = 512 * MOST_BLOCKS;

// How many rules of records there are.
pub const RECORD_RULES: usize = 4;

// A field of a record: the zero bytes before it, its width in bytes, and its limit.
#[derive(Clone, Copy)]
pub struct Field {
    pub zeros: usize,
    pub width: usize,
    pub limit: u32,
}

// Why a return, or rows that are to be written, are refused: the number of the first broken rule, and its lowest place.
#[derive(Clone, Copy, Debug, PartialEq, Eq)]
pub struct Refusal {
    pub number: u8,
    pub place: u32,
}

// What a return holds: its edition, how many rows of each kind, and how many of its stock rows are of scattered trees. A new kind is a new line.
#[derive(Clone, Copy)]
pub struct Counts {
    pub edition: u32,
    pub conversion: u32,
    pub stock: u32,
    pub harvest: u32,
    pub parameters: u32,
    pub abandoned: u32,
    pub savanna: u32,
    pub soils: u32,
    pub crops: u32,
    pub scattered: u32,
}

// The lowest place below n where a test holds.
pub fn first<F: Fn(usize) -> bool>(n: usize, test: F) -> Option<u32>
    requires few { n < 2 ^ 32 }
    requires may { (i : ℕ) → i < n → F.pre test i }
    ensures { (p : ℕ → Bool) → ((i : ℕ) (r : Bool) → i < n → F.post test i r → r ≡ p i) → result ≡ first p n }
{
    for i in 0..n {
        if test(i) {
            return Some(i as u32);
        }
    }
    None
}

// A rule that is broken at a place, or nowhere.
pub fn refuse(number: u8, place: Option<u32>) -> Result<(), Refusal>
    ensures { result ≡ refuse number place Clean }
{
    match place {
        Some(place) => Err(Refusal { number, place }),
        None => Ok(()),
    }
}

// 9: lent room too short, for n elements.
pub fn room_for(n: usize, room: usize) -> Result<(), Refusal>
    ensures { result ≡ cond (ltb room n) (Refused 9 0) Clean }
{
    if room < n {
        return Err(Refusal {
            number: 9,
            place: 0,
        });
    }
    Ok(())
}

pub fn byte_at(bytes: &[u8], at: usize) -> u32
    requires { at < length bytes.now }
    ensures { (result ≡ byte_at bytes.now at) × (result < 256) }
{
    bytes[at] as u32
}

pub fn two_at(bytes: &[u8], at: usize) -> u32
    requires { at + 2 ≤ length bytes.now }
    ensures { (result ≡ number 2 bytes.now at) × (result < 65536) }
{
    byte_at(bytes, at) + 256 * byte_at(bytes, at + 1)
}

pub fn four_at(bytes: &[u8], at: usize) -> u32
    requires { at + 4 ≤ length bytes.now }
    ensures { result ≡ number 4 bytes.now at }
{
    two_at(bytes, at) + 65536 * two_at(bytes, at + 2)
}

// A number in one, two or four bytes.
pub fn number_at(bytes: &[u8], at: usize, w: usize) -> u32
    requires { (0 < w) × (w ≤ 4) × (w ≡ 3 → ⊥) × (at + w ≤ length bytes.now) }
    ensures { result ≡ number w bytes.now at }
{
    if w == 2 {
        return two_at(bytes, at);
    }
    if w == 4 {
        return four_at(bytes, at);
    }
    byte_at(bytes, at)
}

// Bytes or-ed together are zero just where each of them is zero. No early way out, so that many are taken at once.
pub fn stray_in(bytes: &[u8], at: usize, n: usize) -> bool
    requires { at + n ≤ length bytes.now }
    ensures { result ≡ stray_in bytes.now at n }
{
    let mut bits: u32 = 0;
    for i in 0..n {
        bits |= byte_at(bytes, at + i);
    }
    bits != 0
}

// A block's check, worked out as on a department's adding sheet: from offset 507 down to 0 a running sum of the bytes, and the total of those
// running sums. Additions alone: no byte is multiplied.
pub fn check_due(bytes: &[u8], b: usize) -> u32
    requires { 512 * b + 512 ≤ length bytes.now }
    ensures { result ≡ check_due bytes.now b }
{
    let start = 512 * b;
    let mut running: u32 = 0;
    let mut total: u32 = 0;
    for offset in (0..508).rev() {
        running += byte_at(bytes, start + offset);
        total += running;
    }
    total
}

// What a period loses: nothing, where it is thinner before than after.
pub fn counted_difference(before: u32, after: u32) -> u32
    ensures { (result ≡ counted_difference before after) × (result ≤ before) }
{
    if before < after { 0 } else { before - after }
}

// A number where two others agree, and zero elsewhere.
pub fn where_same(a: u32, b: u32, n: u32) -> u32
    ensures { (result ≡ cond (eqb a b) n 0) × (result ≤ n) }
{
    if a == b { n } else { 0 }
}

// The count of a kind.
pub fn count_of(c: Counts, kind: usize) -> u32
    ensures { result ≡ count_in c kind }
{
    match kind {
        1 => c.conversion,
        2 => c.stock,
        3 => c.harvest,
        4 => c.parameters,
        5 => c.abandoned,
        6 => c.savanna,
        7 => c.soils,
        8 => c.crops,
        _ => 0,
    }
}

// How many blocks some rows take.
pub fn blocks_for(rows: usize) -> usize
    requires { rows < 2 ^ 32 }
    ensures { result ≡ blocks_for rows }
{
    (rows + 11) / 12
}

// A kind's first block, behind those of the kinds before it.
pub fn first_block(c: Counts, kind: usize) -> usize
    requires { (0 < kind) × (kind < 2 ^ 24) × Few c }
    ensures { (result ≡ first_block kind c) × (result ≤ 3 * kind) }
{
    let mut first: usize = 0;
    for k in 1..kind {
        first += blocks_for(count_of(c, k) as usize);
    }
    first
}

// The last kind that an edition allows.
pub fn last_kind(edition: u32) -> u32
    ensures { result ≡ last_kind edition }
{
    match edition {
        1 => 4,
        2 => 8,
        3 => 8,
        _ => 0,
    }
}

// Where row i of a kind starts, from the kind's first block: a block of twelve rows has 32 bytes more than they take.
pub fn row_start(first: usize, i: usize) -> usize
    requires { (first < 2 ^ 32) × (i < 2 ^ 32) }
    ensures { result ≡ record_at (first + i / 12) (i % 12) }
{
    512 * first + 8 + 40 * i + 32 * (i / 12)
}

// The number of a rule of records, in the paper's order. A new rule of one row is a new line.
pub fn record_rule(i: usize) -> u8
    requires { i < length record_numbers }
    ensures { result ≡ get_or record_numbers i 0 }
{
    match i {
        0 => 5,
        1 => 6,
        2 => 14,
        _ => 7,
    }
}

// A rule of one row that no row of a kind can break in an edition, so that the kind is passed over: 7 is about conversion rows alone, 14 about stock rows of edition 3.
pub fn spares(number: u32, edition: u32, kind: u32) -> bool
    ensures { result ≡ passed_over number edition kind }
{
    match number {
        14 => (edition != 3) | (kind != 2),
        7 => kind != 1,
        _ => false,
    }
}

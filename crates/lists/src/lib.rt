// The rules of rows that are to be written: 10 by kind, then 5, 6, 14 and 7 where each record would stand.
#![tactic(auto)]

ghost use Rattle.std.specs.Prelude.{◌≡◌, suc, ◌+◌, ◌*◌, ◌^◌, ◌≤◌, ◌<◌, length, get_or, drop};
ghost use Rattle.form.specs.First.{first};
ghost use Rattle.form.specs.Ruling.{ruling};
ghost use Rattle.form.specs.Layout.{kinds, layout, numbers_of, above_limit};
ghost use Rattle.form.specs.Records.{scattered_trees, overspent, bad_id, record_rules, test_numbered};
ghost use Rattle.filing.specs.Lists.{cut, total, rows_in, row_of, blocks_of, filed_list, filed_lists};
ghost use Rattle.lists.specs.Rules.{bad_list, bad_lengths, not_allowed, bad_at, Good, FewRows, blocks_from, shifted, first_of};

use form::layout::{field, numbers};
use form::{
    KINDS, PARAMETERS, RECORD_RULES, Refusal, blocks_for, last_kind, record_rule, refuse, spares,
};

// How many rows of a kind some numbers are.
pub fn count(kind: usize, n: usize) -> usize
    requires { (0 < kind) × (kind ≤ kinds) }
    ensures { (result ≡ rows_in kind n) × (result ≤ n) }
{
    n / numbers(kind)
}

fn bad_list(kind: usize, n: usize) -> bool
    requires { (0 < kind) × (kind ≤ kinds) }
    ensures { result ≡ bad_list kind n }
{
    let rows = count(kind, n);
    (n % numbers(kind) != 0) | (32 < rows) | ((kind == PARAMETERS) & (rows != 1))
}

pub fn length_at(lengths: &[u32], k: usize) -> usize
    requires { k < length lengths.now }
    ensures { (result ≡ get_or lengths.now k 0) × (result < 2 ^ 32) }
{
    lengths[k] as usize
}

// The lengths added up.
pub fn sum(lengths: &[u32]) -> usize
    requires { length lengths.now < 2 ^ 24 }
    ensures { (result ≡ total lengths.now) × (result < 2 ^ 56) }
{
    let mut all: usize = 0;
    for i in 0..lengths.len() {
        all += length_at(lengths, i);
    }
    all
}

fn bad_lengths(lengths: &[u32], m: usize) -> bool
    ensures { result ≡ bad_lengths lengths.now m }
{
    if lengths.len() != KINDS {
        return true;
    }
    sum(lengths) != m
}

// Rows of a kind that the edition does not have.
fn not_allowed(edition: u32, kind: usize, n: usize) -> bool
    ensures { result ≡ not_allowed edition kind n }
{
    ((last_kind(edition) as usize) < kind) & (n != 0)
}

// Rule 10, of lists of these lengths in an area of m numbers, for a return of this edition.
pub fn first_bad_list(edition: u32, lengths: &[u32], m: usize) -> Option<u32>
    ensures { result ≡ first (bad_at edition lengths.now m) (suc kinds) }
{
    if !(0 < last_kind(edition)) | bad_lengths(lengths, m) {
        return Some(0);
    }
    for k in 0..KINDS {
        let n = length_at(lengths, k);
        if not_allowed(edition, k + 1, n) | bad_list(k + 1, n) {
            return Some(k as u32 + 1);
        }
    }
    None
}

// The row against the one before it, of a kind that has ids.
fn bad_id(kind: usize, rows: &[u32], j: usize) -> bool
    requires { (0 < kind) × (kind ≤ kinds) × (j < rows_in kind (length rows.now)) }
    ensures { result ≡ bad_id (filed_list kind rows.now) j }
{
    if kind == PARAMETERS {
        return false;
    }
    if j == 0 {
        return false;
    }
    let n = numbers(kind);
    rows[n * j] <= rows[n * (j - 1)]
}

// The lowest row whose id is not above the one before it.
fn first_bad_id(kind: usize, rows: &[u32], start: usize) -> Option<u32>
    requires { (0 < kind) × (kind ≤ kinds) × (rows_in kind (length rows.now) ≤ 32) × (start < 2 ^ 24) }
    ensures { result ≡ shifted start (first (bad_id (filed_list kind rows.now)) (rows_in kind (length rows.now))) }
{
    let n = count(kind, rows.len());
    for j in 0..n {
        if bad_id(kind, rows, j) {
            return Some((start + j) as u32);
        }
    }
    None
}

// No early way out, so that the compiler makes straight code of the fields.
fn above_fields(kind: usize, rows: &[u32], j: usize) -> bool
    requires { j < rows_in kind (length rows.now) }
    ensures { result ≡ above_limit (layout kind) (row_of kind rows.now j) }
{
    let n = numbers(kind);
    let from = n * j;
    let mut above = false;
    for i in 0..n {
        let f = field(kind, i);
        above = above | (f.limit < rows[from + i]);
    }
    above
}

// The lowest row with a field above its limit, its list's first record standing at `start`.
fn first_above_in(kind: usize, rows: &[u32], start: usize) -> Option<u32>
    requires { (0 < kind) × (kind ≤ kinds) × (rows_in kind (length rows.now) ≤ 32) × (start < 2 ^ 24) }
    ensures { result ≡ shifted start (first (λ j. above_limit (layout kind) (row_of kind rows.now j)) (rows_in kind (length rows.now))) }
{
    let n = count(kind, rows.len());
    for j in 0..n {
        if above_fields(kind, rows, j) {
            return Some((start + j) as u32);
        }
    }
    None
}

// The kind by its number, so that the compiler makes a loop of each kind's limits. A new kind is a new line.
fn first_above(kind: usize, rows: &[u32], start: usize) -> Option<u32>
    requires { (0 < kind) × (kind ≤ kinds) × (rows_in kind (length rows.now) ≤ 32) × (start < 2 ^ 24) }
    ensures { result ≡ shifted start (first (λ j. above_limit (layout kind) (row_of kind rows.now j)) (rows_in kind (length rows.now))) }
{
    match kind {
        1 => first_above_in(1, rows, start),
        2 => first_above_in(2, rows, start),
        3 => first_above_in(3, rows, start),
        4 => first_above_in(4, rows, start),
        5 => first_above_in(5, rows, start),
        6 => first_above_in(6, rows, start),
        7 => first_above_in(7, rows, start),
        8 => first_above_in(8, rows, start),
        _ => first_above_in(kind, rows, start),
    }
}

fn wide(x: u32) -> u64
    ensures { (result ≡ x) × (result < 4294967296) }
{
    x as u64
}

// The fractions of the conversion row at `at`; their sum has room in 64 bits.
fn overspent_at(rows: &[u32], at: usize) -> bool
    requires { at + numbers_of 1 ≤ length rows.now }
    ensures { result ≡ overspent (drop at rows.now) }
{
    1000 < wide(rows[at + 4]) + wide(rows[at + 7]) + wide(rows[at + 13])
}

// A stock row of scattered trees, which edition 3 no longer has.
fn scattered(edition: u32, kind: usize, rows: &[u32], j: usize) -> bool
    requires { j < rows_in kind (length rows.now) }
    ensures { result ≡ scattered_trees edition kind (row_of kind rows.now j) }
{
    if edition != 3 {
        return false;
    }
    if kind != 2 {
        return false;
    }
    let at = numbers(2) * j;
    rows[at + 1] == 1
}

// A rule of one row but 6, by its number, of row j.
fn row_breaks(number: u32, edition: u32, kind: usize, rows: &[u32], j: usize) -> bool
    requires { (number ≡ 6 → ⊥) × (j < rows_in kind (length rows.now)) }
    ensures { result ≡ test_numbered number edition kind (row_of kind rows.now j) }
{
    if number == 14 {
        return scattered(edition, kind, rows, j);
    }
    if kind != 1 {
        return false;
    }
    let at = numbers(1) * j;
    if number == 7 {
        return overspent_at(rows, at);
    }
    false
}

// The lowest row that breaks it; a kind whose rows can't is passed over.
fn first_row_in(number: u32, edition: u32, kind: usize, rows: &[u32], start: usize) -> Option<u32>
    requires { (number ≡ 6 → ⊥) × (0 < kind) × (kind ≤ kinds) × (rows_in kind (length rows.now) ≤ 32) × (start < 2 ^ 24) }
    ensures { result ≡ shifted start (first (λ j. test_numbered number edition kind (row_of kind rows.now j)) (rows_in kind (length rows.now))) }
{
    if spares(number, edition, kind as u32) {
        return None;
    }
    let n = count(kind, rows.len());
    for j in 0..n {
        if row_breaks(number, edition, kind, rows, j) {
            return Some((start + j) as u32);
        }
    }
    None
}

// The lowest place where a list breaks a rule, its first record standing at `start`.
fn first_in(number: u32, edition: u32, kind: usize, rows: &[u32], start: usize) -> Option<u32>
    requires { (0 < kind) × (kind ≤ kinds) × (rows_in kind (length rows.now) ≤ 32) × (start < 2 ^ 24) }
    ensures { result ≡ shifted start (first_of number edition (filed_list kind rows.now)) }
{
    match number {
        5 => first_bad_id(kind, rows, start),
        6 => first_above(kind, rows, start),
        _ => first_row_in(number, edition, kind, rows, start),
    }
}

// How many blocks a list of n numbers takes.
pub fn blocks_of(kind: usize, n: usize) -> usize
    requires { (0 < kind) × (kind ≤ kinds) × (rows_in kind n ≤ 32) }
    ensures { (result ≡ blocks_of kind n) × (result ≤ 3) }
{
    blocks_for(count(kind, n))
}

// The lowest place where the lists break a rule, kind by kind.
fn first_broken(number: u32, edition: u32, lengths: &[u32], area: &[u32]) -> Option<u32>
    requires { Good lengths.now (length area.now) }
    ensures { result ≡ first_of number edition (filed_lists (cut lengths.now area.now)) }
{
    let mut from: usize = 0;
    let mut start: usize = 0;
    for k in 0..KINDS {
        let n = length_at(lengths, k);
        let end = from + n;
        if let Some(place) = first_in(number, edition, k + 1, &area[from..end], start) {
            return Some(place);
        }
        start += 12 * blocks_of(k + 1, n);
        from = end;
    }
    None
}

// Rules 5, 6, 14 and 7, by their numbers, of lists that 10 has found good.
pub fn rule_records(edition: u32, lengths: &[u32], area: &[u32]) -> Result<(), Refusal>
    requires { Good lengths.now (length area.now) }
    ensures { result ≡ ruling (record_rules edition (filed_lists (cut lengths.now area.now))) }
{
    for i in 0..RECORD_RULES {
        let number = record_rule(i);
        refuse(number, first_broken(number as u32, edition, lengths, area))?;
    }
    Ok(())
}

// How many blocks the lists take, of all kinds or of the first.
pub fn blocks_in(lengths: &[u32]) -> usize
    requires { (length lengths.now ≤ kinds) × FewRows lengths.now }
    ensures { (result ≡ blocks_from 1 lengths.now) × (result ≤ 60) }
{
    let mut n: usize = 0;
    for k in 0..lengths.len() {
        n += blocks_of(k + 1, length_at(lengths, k));
    }
    n
}

// The decimals of each field by its kind and its number, and the kinds by their names. Told by tests, as the layouts are.
#![tactic(auto)]

ghost use Rattle.std.specs.Prelude.{◌≡◌, ◌≤◌, ◌<◌, length, get_or};
ghost use Rattle.form.specs.Layout.{kinds, numbers_of};
ghost use Rattle.columns.specs.Columns.{plain, conversion, stock, harvest, abandoned, savanna, soil, crop, decimals_of, kind_named, kind_or_none};

use cells::same_word;

fn conversion(i: usize) -> u32
    requires { i < length conversion }
    ensures { result ≡ (get_or conversion i plain).decimals }
{
    match i {
        0 => 0,
        1 | 10 => 2,
        2 | 3 | 11 | 12 => 1,
        _ => 3,
    }
}

fn stock(unit: u32, i: usize) -> u32
    requires { i < length (stock unit) }
    ensures { result ≡ (get_or (stock unit) i plain).decimals }
{
    if i < 2 {
        return 0;
    }
    if i == 4 {
        return 3;
    }
    if unit != 1 {
        return 2;
    }
    if i == 2 { 4 } else { 0 }
}

fn harvest(i: usize) -> u32
    requires { i < length harvest }
    ensures { result ≡ (get_or harvest i plain).decimals }
{
    match i {
        0 => 0,
        2 => 3,
        _ => 1,
    }
}

fn abandoned(i: usize) -> u32
    requires { i < length abandoned }
    ensures { result ≡ (get_or abandoned i plain).decimals }
{
    match i {
        0 => 0,
        3 | 6 => 3,
        _ => 2,
    }
}

fn savanna(i: usize) -> u32
    requires { i < length savanna }
    ensures { result ≡ (get_or savanna i plain).decimals }
{
    match i {
        0 => 0,
        1 => 2,
        2 => 1,
        _ => 3,
    }
}

fn soil(i: usize) -> u32
    requires { i < length soil }
    ensures { result ≡ (get_or soil i plain).decimals }
{
    match i {
        0..=2 => 0,
        3 | 4 => 3,
        5 => 1,
        _ => 2,
    }
}

fn crop(i: usize) -> u32
    requires { i < length crop }
    ensures { result ≡ (get_or crop i plain).decimals }
{
    match i {
        0 => 0,
        1 => 1,
        2 => 2,
        6 => 4,
        _ => 3,
    }
}

// The decimals of field i of a row with a unit. A new kind is a new line.
pub fn decimals(kind: usize, unit: u32, i: usize) -> u32
    requires { i < numbers_of kind }
    ensures { (result ≡ decimals_of kind unit i) × (result ≤ 4) }
{
    match kind {
        1 => conversion(i),
        2 => stock(unit, i),
        3 => harvest(i),
        4 => 3,
        5 => abandoned(i),
        6 => savanna(i),
        7 => soil(i),
        8 => crop(i),
        _ => 0,
    }
}

// The kind that a word names. A new kind is a new line.
pub fn kind_named(word: &[u8]) -> Option<usize>
    ensures { (result ≡ kind_or_none (kind_named word.now)) × (kind_named word.now ≤ kinds) }
{
    if same_word(b"conversion", word) {
        return Some(1);
    }
    if same_word(b"stock", word) {
        return Some(2);
    }
    if same_word(b"harvest", word) {
        return Some(3);
    }
    if same_word(b"parameters", word) {
        return Some(4);
    }
    if same_word(b"abandoned", word) {
        return Some(5);
    }
    if same_word(b"savanna", word) {
        return Some(6);
    }
    if same_word(b"soil", word) {
        return Some(7);
    }
    if same_word(b"crop", word) {
        return Some(8);
    }
    None
}

// The entries of table 5-2 of document 001: the forest area of 1980, of 1990 and the yearly conversion rate, by number.
#![tactic(auto)]

mod figures;

ghost use Rattle.std.specs.Prelude.{◌≡◌, ◌+◌, ◌*◌, ◌<◌, get_or};
ghost use Rattle.entries52.specs.Table.{table, entries};
ghost use Rattle.entries52.specs.Entries.{same_area, rate_of, marked, among, entry_at};
ghost use Rattle.entries52.specs.Cells.{cells, figure_of};

use crate::figures::{BLANK, FIGURES, MARKED};

// What the table has of a country in a zone, in tenths of kha and in tenths of kha a year: a blank of the document has no number that could be taken for one.
// The mark says that the source breaks the rule of the rates there.
#[derive(Clone, Copy, Debug, PartialEq, Eq)]
pub struct Entry {
    pub area1980: Option<i32>,
    pub area1990: Option<i32>,
    pub rate: Option<i32>,
    pub marked: bool,
}

// A number of the table, or a blank.
fn figure_of(n: i32) -> Option<i32>
    ensures { result ≡ figure_of n }
{
    if n == BLANK {
        return None;
    }
    Some(n)
}

fn figure_at(at: usize) -> Option<i32>
    requires { at < 3 * entries }
    ensures { result ≡ get_or (cells table) at None }
{
    figure_of(FIGURES[at])
}

// Two areas that are given and equal.
fn same_area(a: Option<i32>, b: Option<i32>) -> bool
    ensures { result ≡ same_area a b }
{
    a.is_some() && a == b
}

// A blank rate beside two equal areas is zero; every other blank is not given.
fn rate_of(a: Option<i32>, b: Option<i32>, rate: Option<i32>) -> Option<i32>
    ensures { result ≡ rate_of a b rate }
{
    rate.or(same_area(a, b).then_some(0))
}

fn marked_at(n: usize) -> bool
    requires { n < entries }
    ensures { result ≡ among n marked }
{
    MARKED[n]
}

// Entry n: 6 for each country, in the document's order.
pub fn entry_at(n: usize) -> Entry
    requires { n < entries }
    ensures { result ≡ entry_at n }
{
    let area1980 = figure_at(3 * n);
    let area1990 = figure_at(3 * n + 1);
    let rate = rate_of(area1980, area1990, figure_at(3 * n + 2));
    Entry {
        area1980,
        area1990,
        rate,
        marked: marked_at(n),
    }
}

// The same rules, of rows that are to be written. A row's numbers are taken as they come, so a part takes two words.
ghost use Rattle.std.specs.Prelude.{◌≡◌, ◌*◌, ◌^◌, ◌≤◌, ◌<◌, length, get_or};
ghost use Rattle.form.specs.Ruling.{ruling};
ghost use Rattle.form.specs.Layout.{kinds};
ghost use Rattle.form.specs.Records.{filed_rows};
ghost use Rattle.form.specs.Sums.{sum_of, harvest_part, cleared_part, sum_rules};
ghost use Rattle.filing.specs.Lists.{cut, rows_in, row_of, filed_list, filed_lists};
ghost use Rattle.lists.specs.Rules.{Good};
ghost use Rattle.wide.specs.Numbers.{value, Is};
ghost use Rattle.balance.specs.Wood.{wood_of, wood_part};

use crate::{Wood, rule_wood};
use areas::rule_unwritten;
use form::{Refusal, counted_difference};
use lists::{count, length_at};
use totals::DryMatter;
use wide::{Wide, add, add_word, of, times};

fn number_in(rows: &[u32], at: usize) -> u32
    requires { at < length rows.now }
    ensures { (result ≡ get_or rows.now at 0) × (result < 2 ^ 32) }
{
    rows[at]
}

// A conversion row's part in L.
fn cleared_in(rows: &[u32], j: usize) -> Wide
    requires { j < rows_in 1 (length rows.now) }
    ensures { Is result (cleared_part (row_of 1 rows.now j)) × (value result < 2 ^ 96) }
{
    let at = 15 * j;
    let area = number_in(rows, at + 1);
    let difference = counted_difference(number_in(rows, at + 2), number_in(rows, at + 3));
    times(
        of((area as u64) * (difference as u64)),
        number_in(rows, at + 7),
    )
}

// A harvest row's part in K.
fn used_in(rows: &[u32], j: usize) -> Wide
    requires { j < rows_in 3 (length rows.now) }
    ensures { Is result (harvest_part (row_of 3 rows.now j)) × (value result < 2 ^ 96) }
{
    let at = 5 * j;
    let sold = (number_in(rows, at + 1) as u64) * (number_in(rows, at + 2) as u64);
    let taken = number_in(rows, at + 3) as u64 + number_in(rows, at + 4) as u64;
    add_word(of(sold), 1000 * taken)
}

fn part_in(kind: usize, rows: &[u32], j: usize) -> Wide
    requires { j < rows_in kind (length rows.now) }
    ensures { Is result (wood_part kind (row_of kind rows.now j)) × (value result < 2 ^ 96) }
{
    match kind {
        1 => cleared_in(rows, j),
        3 => used_in(rows, j),
        _ => of(0),
    }
}

// The sum over the rows of a kind's list.
fn sum_list(kind: usize, rows: &[u32]) -> Wide
    requires { (0 < kind) × (kind ≤ kinds) × (rows_in kind (length rows.now) ≤ 32) }
    ensures { Is result (sum_of (wood_part kind) (filed_rows (filed_list kind rows.now) kind)) × (value result < 2 ^ 102) }
{
    let n = count(kind, rows.len());
    let mut sum = of(0);
    for j in 0..n {
        sum = add(sum, part_in(kind, rows, j));
    }
    sum
}

// The wood of lists that 10 has found good: the conversion rows lie first in the area, the harvest rows behind the stocks.
pub fn weigh_lists(lengths: &[u32], area: &[u32]) -> Wood
    requires { Good lengths.now (length area.now) }
    ensures { result ≡ wood_of (filed_rows (filed_lists (cut lengths.now area.now)) 3) (filed_rows (filed_lists (cut lengths.now area.now)) 1) }
{
    let conversion = length_at(lengths, 0);
    let from = conversion + length_at(lengths, 1);
    let end = from + length_at(lengths, 2);
    let cleared = sum_list(1, &area[0..conversion]);
    let used = sum_list(3, &area[from..end]);
    Wood {
        used: DryMatter(times(used, 100)),
        cleared: DryMatter(cleared),
    }
}

// The rules that add rows up, of such lists.
pub fn rule_lists(lengths: &[u32], area: &[u32]) -> Result<(), Refusal>
    requires { Good lengths.now (length area.now) }
    ensures { result ≡ ruling (sum_rules (filed_lists (cut lengths.now area.now))) }
{
    rule_wood(weigh_lists(lengths, area))?;
    rule_unwritten(lengths, area)
}

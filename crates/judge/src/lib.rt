// The judge: any bytes of any length are accepted, with the row counts, or refused, with one number and one place.
#![tactic(auto)]

ghost use Rattle.std.specs.Prelude.{◌≡◌, ◌^◌, ◌<◌, length};
ghost use Rattle.form.specs.Ruling.{ruling};
ghost use Rattle.form.specs.Block.{edition};
ghost use Rattle.form.specs.Records.{filed, record_rules};
ghost use Rattle.form.specs.Verdict.{block_rules, form_rules, row_count, counts_of, Formed, verdict_of};

use balance::rule_sums;
use blocks::bad_block;
use form::{
    Counts, RECORD_RULES, Refusal, blocks_for, byte_at, first, record_rule, refuse, two_at,
    where_same,
};
use headers::{bad_check, bad_header, bad_length};
use sums::count_scattered;

// Rules 1 to 4.
fn rule_blocks(bytes: &[u8]) -> Result<(), Refusal>
    ensures { result ≡ ruling (block_rules bytes.now) }
{
    if bad_length(bytes) {
        return Err(Refusal {
            number: 1,
            place: 0,
        });
    }
    let n = bytes.len() / 512;
    refuse(2, first(n, |b| bad_check(bytes, b)))?;
    refuse(3, first(n, |b| bad_header(bytes, b)))?;
    refuse(4, first(n, |b| bad_block(bytes, b)))
}

// Rules 5, 6, 14 and 7, by their numbers.
fn rule_records(bytes: &[u8]) -> Result<(), Refusal>
    requires { length bytes.now < 2 ^ 24 }
    ensures { result ≡ ruling (record_rules (edition bytes.now 0) (filed bytes.now)) }
{
    for i in 0..RECORD_RULES {
        let number = record_rule(i);
        refuse(number, records::first_broken(bytes, number as u32))?;
    }
    Ok(())
}

// Rules 1 to 7 and 14, in the paper's order: the blocks whole before the records.
fn rule_form(bytes: &[u8]) -> Result<(), Refusal>
    ensures { result ≡ ruling (form_rules bytes.now) }
{
    rule_blocks(bytes)?;
    rule_records(bytes)
}

// How many rows of a kind there are: the counts of its blocks, added up.
fn rows_of(bytes: &[u8], kind: u32) -> u32
    requires { length bytes.now < 2 ^ 24 }
    ensures { result ≡ row_count kind bytes.now }
{
    let n = bytes.len() / 512;
    let mut rows: u32 = 0;
    for b in 0..n {
        rows += where_same(byte_at(bytes, 512 * b), kind, byte_at(bytes, 512 * b + 1));
    }
    rows
}

// The edition, from block 0, and the rows; and how many stock rows are of scattered trees, which stand behind the conversion's blocks. A new kind is a new line.
pub fn count_rows(bytes: &[u8]) -> Counts
    requires { Formed bytes.now (counts_of bytes.now) }
    ensures { result ≡ counts_of bytes.now }
{
    let conversion = rows_of(bytes, 1);
    let stock = rows_of(bytes, 2);
    Counts {
        edition: two_at(bytes, 6),
        conversion,
        stock,
        harvest: rows_of(bytes, 3),
        parameters: rows_of(bytes, 4),
        abandoned: rows_of(bytes, 5),
        savanna: rows_of(bytes, 6),
        soils: rows_of(bytes, 7),
        crops: rows_of(bytes, 8),
        scattered: count_scattered(bytes, blocks_for(conversion as usize), stock as usize),
    }
}

// Any bytes of any length, read in place: 1 to 7 and 14, then what the rows add up to.
pub fn judge(bytes: &[u8]) -> Result<Counts, Refusal>
    ensures { result ≡ verdict_of bytes.now }
{
    rule_form(bytes)?;
    let counts = count_rows(bytes);
    rule_sums(bytes, counts)?;
    Ok(counts)
}

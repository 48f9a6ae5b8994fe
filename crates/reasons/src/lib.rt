// Why a return was refused: the values that clash at the refusal's place.
#![tactic(auto)]

mod row_reasons;

ghost use Rattle.std.specs.Prelude.{◌≡◌, ◌^◌, ◌<◌, length};
ghost use Rattle.form.specs.Block.{blocks};
ghost use Rattle.form.specs.Verdict.{counts_of, Formed, verdict_of};
ghost use Rattle.form.specs.Refusals.{Refused};
ghost use Rattle.reasons.specs.Reasons.{header_of, check_reason, header_reason, block_reason, wood_reason, reason_of};

use crate::row_reasons::{field_above, fractions_above, id_below, scattered_trees, soil_uneven};
use balance::weigh_wood;
use faults::{Fault, first_fault};
use form::{byte_at, check_due, four_at, two_at};
use judge::count_rows;

// A block's header, as it stands there.
#[derive(Clone, Copy)]
pub struct Header {
    pub kind: u32,
    pub count: u32,
    pub number: u32,
    pub blocks: u32,
    pub edition: u32,
}

// The row that a refusal names: its place, its kind, and what stands where its id does.
#[derive(Clone, Copy)]
pub struct Row {
    pub place: u32,
    pub kind: u32,
    pub id: u32,
}

// The values that clash, a case for each refusal number. A new number is a new case; one of a row has the row first.
#[derive(Clone, Copy)]
pub enum Reason {
    BadLength {
        length: usize,
    },
    BadCheck {
        block: u32,
        stored: u32,
        computed: u32,
    },
    BadHeader {
        block: u32,
        said: Header,
        blocks_due: u32,
        edition_first: u32,
    },
    BadBlock {
        block: u32,
        said: Header,
        fault: Fault,
    },
    IdBelow {
        row: Row,
        before: u32,
    },
    FieldAbove {
        row: Row,
        field: u32,
        value: u32,
        limit: u32,
    },
    FractionsAbove {
        row: Row,
        onsite: u32,
        offsite: u32,
        decay: u32,
        sum: u32,
    },
    ClearedAbove {
        used: u64,
        cleared: u64,
    },
    SoilUneven {
        row: Row,
        soil: u32,
        now: u64,
        then: u64,
    },
    ScatteredTrees {
        row: Row,
        code: u32,
        edition: u32,
    },
}

fn header_at(bytes: &[u8], b: usize) -> Header
    requires { b < blocks bytes.now }
    ensures { result ≡ header_of bytes.now b }
{
    Header {
        kind: byte_at(bytes, 512 * b),
        count: byte_at(bytes, 512 * b + 1),
        number: two_at(bytes, 512 * b + 2),
        blocks: two_at(bytes, 512 * b + 4),
        edition: two_at(bytes, 512 * b + 6),
    }
}

// 2.
fn bad_check(bytes: &[u8], b: u32) -> Reason
    requires { b < blocks bytes.now }
    ensures { result ≡ check_reason bytes.now b }
{
    Reason::BadCheck {
        block: b,
        stored: four_at(bytes, 512 * b as usize + 508),
        computed: check_due(bytes, b as usize),
    }
}

// 3.
fn bad_header(bytes: &[u8], b: u32) -> Reason
    requires { (b < blocks bytes.now) × (length bytes.now < 2 ^ 24) }
    ensures { result ≡ header_reason bytes.now b }
{
    Reason::BadHeader {
        block: b,
        said: header_at(bytes, b as usize),
        blocks_due: (bytes.len() / 512) as u32,
        edition_first: two_at(bytes, 6),
    }
}

// 4.
fn bad_block(bytes: &[u8], b: u32) -> Reason
    requires { (b < blocks bytes.now) × (length bytes.now < 2 ^ 24) }
    ensures { result ≡ block_reason bytes.now b }
{
    Reason::BadBlock {
        block: b,
        said: header_at(bytes, b as usize),
        fault: first_fault(bytes, b as usize),
    }
}

// 12: of the whole return. Both masses are below 2^64, so their lower words say them.
fn cleared_above(bytes: &[u8]) -> Reason
    requires { Formed bytes.now (counts_of bytes.now) }
    ensures { result ≡ wood_reason bytes.now }
{
    let wood = weigh_wood(bytes, count_rows(bytes));
    Reason::ClearedAbove {
        used: wood.used.0.lo,
        cleared: wood.cleared.0.lo,
    }
}

// The reason of a refusal, by its number and its place. A new number is a new line.
pub fn reason_of(bytes: &[u8], number: u8, place: u32) -> Reason
    requires { verdict_of bytes.now ≡ Refused number place }
    ensures { result ≡ reason_of bytes.now number place }
{
    match number {
        1 => Reason::BadLength {
            length: bytes.len(),
        },
        2 => bad_check(bytes, place),
        3 => bad_header(bytes, place),
        4 => bad_block(bytes, place),
        5 => id_below(bytes, place),
        6 => field_above(bytes, place),
        7 => fractions_above(bytes, place),
        12 => cleared_above(bytes),
        14 => scattered_trees(bytes, place),
        _ => soil_uneven(bytes, place),
    }
}

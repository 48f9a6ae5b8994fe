// A file of returns end to end: what comes next in it, by the number of blocks in a return's first header.
#![tactic(auto)]

ghost use Rattle.std.specs.Prelude.{◌≡◌, ◌≤◌, ◌<◌, length};
ghost use Rattle.cutting.specs.Cutting.{size_said, next_after, wanted_of};
ghost use Rattle.form.specs.Block.{longest};

use form::{MOST_BLOCKS, two_at};

// How many returns a file may have.
pub const MOST_RETURNS: u32 = 500;

// Why a run goes no further: the file is whole, or the first header says a number of blocks that no return has, or the file ends inside a return, or it has
// a return too many.
#[derive(Clone, Copy, Debug, PartialEq, Eq)]
pub enum Stop {
    Whole,
    Blocks(u32),
    Short,
    Many,
}

// How many bytes a return of so many blocks has; none where no return has so many.
fn size_of(blocks: u32) -> Option<usize>
    ensures { result ≡ size_said blocks }
{
    if blocks == 0 || MOST_BLOCKS < blocks as usize {
        return None;
    }
    Some(512 * (blocks as usize))
}

// How many bytes the return has that comes next in what is left, when some returns were taken before; or why the run goes no further.
pub fn cut_next(left: &[u8], taken: u32) -> Result<usize, Stop>
    ensures { result ≡ next_after taken left.now }
{
    if left.is_empty() {
        return Err(Stop::Whole);
    }
    if MOST_RETURNS <= taken {
        return Err(Stop::Many);
    }
    if left.len() < 6 {
        return Err(Stop::Short);
    }
    let blocks = two_at(left, 4);
    let size = size_of(blocks).ok_or(Stop::Blocks(blocks))?;
    if left.len() < size {
        return Err(Stop::Short);
    }
    Ok(size)
}

// How many bytes a program that reads a return at a time has to have, by the first six: then `cut_next` of these is that of the whole file.
pub fn wanted(head: &[u8]) -> usize
    ensures { (result ≡ wanted_of head.now) × (6 ≤ result) × (result ≤ longest) }
{
    if head.len() < 6 {
        return 6;
    }
    size_of(two_at(head, 4)).unwrap_or(6)
}

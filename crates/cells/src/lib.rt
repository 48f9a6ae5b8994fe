// The lines of a text, and the fields of a line. Nothing is copied: what is found comes back as places in the caller's bytes.
#![tactic(auto)]

ghost use Rattle.std.specs.Prelude.{◌≡◌, ◌+◌, ◌≤◌, ◌<◌, min, length, drop, get_or};
ghost use Rattle.cells.specs.Lines.{part, text_start, LineAt};
ghost use Rattle.cells.specs.Cells.{blank_in, front_off, end_off, quotes_off, cleaned, found_in, EndAt, CellIn, FieldAt};
ghost use Rattle.cells.specs.Cells.{is_filler, is_empty_line, is_note, small, same_word};

// Where a line stands, without its end, and where the next begins.
#[derive(Clone, Copy)]
pub struct Line {
    pub from: usize,
    pub to: usize,
    pub next: usize,
}

// Where a cleaned field stands.
#[derive(Clone, Copy)]
pub struct Cell {
    pub from: usize,
    pub to: usize,
}

// The same, and where the next field begins.
#[derive(Clone, Copy)]
pub struct Field {
    pub from: usize,
    pub to: usize,
    pub next: usize,
}

// A byte; past the end it is 0.
fn byte_at(bytes: &[u8], at: usize) -> u8
    ensures { result ≡ get_or bytes.now at 0 }
{
    if at < bytes.len() { bytes[at] } else { 0 }
}

// Where a text begins: behind the byte order mark, if it has one.
#[tactic(auto, unfolding(crate::specs::Lines::text_start))]
pub fn text_start(text: &[u8]) -> usize
    ensures { (result ≡ text_start text.now) × (result ≤ length text.now) }
{
    if byte_at(text, 0) == 239 && byte_at(text, 1) == 187 && byte_at(text, 2) == 191 {
        3
    } else {
        0
    }
}

// Where the field or the line that begins at a place ends: at the next separator, or at the end.
pub fn end_of(text: &[u8], at: usize, sep: u8) -> usize
    requires { at ≤ length text.now }
    ensures { EndAt sep text.now at result }
{
    for k in at..text.len() {
        if text[k] == sep {
            return k;
        }
    }
    text.len()
}

// The line that begins at a place. A CR is looked for only where an LF stands behind it.
pub fn next_line(text: &[u8], at: usize) -> Line
    requires { at < length text.now }
    ensures { LineAt text.now at result }
{
    let end = end_of(text, at, 10);
    if end == text.len() {
        return Line {
            from: at,
            to: end,
            next: end,
        };
    }
    if end == at {
        return Line {
            from: at,
            to: end,
            next: end + 1,
        };
    }
    if text[end - 1] == 13 {
        return Line {
            from: at,
            to: end - 1,
            next: end + 1,
        };
    }
    Line {
        from: at,
        to: end,
        next: end + 1,
    }
}

// A space, and a tab where it does not separate.
#[tactic(auto, unfolding(crate::specs::Cells::blank_in))]
fn is_blank(b: u8, sep: u8) -> bool
    ensures { result ≡ blank_in sep b }
{
    b == 32 || b == 9 && sep != 9
}

// Past the blanks at the front of a part.
pub fn front(line: &[u8], from: usize, to: usize, sep: u8) -> usize
    requires { (from ≤ to) × (to ≤ length line.now) }
    ensures { (from ≤ result) × (result ≤ to) × (part result to line.now ≡ front_off sep (part from to line.now)) }
{
    for k in from..to {
        if !is_blank(line[k], sep) {
            return k;
        }
    }
    to
}

// Before the blanks at its end.
fn back(line: &[u8], from: usize, to: usize, sep: u8) -> usize
    requires { (from ≤ to) × (to ≤ length line.now) }
    ensures { (from ≤ result) × (result ≤ to) × (part from result line.now ≡ end_off sep (part from to line.now)) }
{
    for k in (from..to).rev() {
        if !is_blank(line[k], sep) {
            return k + 1;
        }
    }
    from
}

// Inside the double quotes around a part, if they are around it.
fn unquote(line: &[u8], from: usize, to: usize) -> Cell
    requires { (from ≤ to) × (to ≤ length line.now) }
    ensures { CellIn line.now from to result (quotes_off (part from to line.now)) }
{
    if to - from < 2 {
        return Cell { from, to };
    }
    if line[from] != 34 {
        return Cell { from, to };
    }
    if line[to - 1] != 34 {
        return Cell { from, to };
    }
    Cell {
        from: from + 1,
        to: to - 1,
    }
}

// A field's place, cleaned.
pub fn clean(line: &[u8], from: usize, to: usize, sep: u8) -> Cell
    requires { (from ≤ to) × (to ≤ length line.now) }
    ensures { CellIn line.now from to result (cleaned sep (part from to line.now)) }
{
    let a = front(line, from, to, sep);
    let b = back(line, a, to, sep);
    unquote(line, a, b)
}

// Where the next field begins, behind one that ends at a place: at the end there is nothing to step over.
fn past(line: &[u8], end: usize) -> usize
    requires { end ≤ length line.now }
    ensures { (result ≡ min (end + 1) (length line.now)) × (drop result line.now ≡ drop (end + 1) line.now) }
{
    if end < line.len() { end + 1 } else { end }
}

// The field that begins at a place: its cell, and where the next begins.
pub fn next_field(line: &[u8], at: usize, sep: u8) -> Field
    requires { at ≤ length line.now }
    ensures { FieldAt sep line.now at result }
{
    let end = end_of(line, at, sep);
    let cell = clean(line, at, end, sep);
    let next = past(line, end);
    Field {
        from: cell.from,
        to: cell.to,
        next,
    }
}

// How many fields stand behind the first, up to the last that is not empty.
pub fn found(line: &[u8], sep: u8) -> usize
    ensures { result ≡ found_in sep line.now }
{
    let first = end_of(line, 0, sep);
    let mut at = past(line, first);
    let mut seen: usize = 0;
    let mut last: usize = 0;
    // no plainer by `for`: a turn steps on by a field, whose length only the turn finds
    while at < line.len() {
        let field = next_field(line, at, sep);
        seen += 1;
        if field.from < field.to {
            last = seen;
        }
        at = field.next;
    }
    last
}

// A comma, a semicolon, a tab or a space.
#[tactic(auto, unfolding(crate::specs::Cells::is_filler))]
fn is_filler(b: u8) -> bool
    ensures { result ≡ is_filler b }
{
    b == 44 || b == 59 || b == 9 || b == 32
}

// A line of nothing but what a spreadsheet leaves of empty cells.
pub fn is_empty_line(line: &[u8]) -> bool
    ensures { result ≡ is_empty_line line.now }
{
    line.iter().all(|b| is_filler(*b))
}

// Before the separator is known a tab is a blank: a comma as separator asks just that.
pub fn is_note(line: &[u8], sep: u8) -> bool
    ensures { result ≡ is_note sep line.now }
{
    let at = front(line, 0, line.len(), sep);
    let b = byte_at(line, at);
    b == 35 || b == 34 && byte_at(line, at + 1) == 35
}

// A capital letter made small; any other byte is as it was.
#[tactic(auto, unfolding(crate::specs::Cells::small))]
fn small_letter(b: u8) -> u8
    ensures { result ≡ small b }
{
    if 65 <= b && b <= 90 { b + 32 } else { b }
}

// Whether a field is a word of small letters, its own letters capital or not.
pub fn same_word(word: &[u8], field: &[u8]) -> bool
    ensures { result ≡ same_word word.now field.now }
{
    if word.len() != field.len() {
        return false;
    }
    for k in 0..word.len() {
        let b = small_letter(field[k]);
        if word[k] != b {
            return false;
        }
    }
    true
}

// A picture of the file, over `held` and `segment_in_store`.
ghost use Rattle.std.specs.Prelude.{◌≡◌, ◌*◌, ◌/◌, ◌<◌, ◌≤◌};

use crate::inner::store::store_of;
use console_state::inner::failure::Answered;
use console_state::inner::state::State;
use console_text::inner::print::Output;
use console_text::inner::words::{BadWord, Words};
use lost_segments::segment_in_store::segment_in_store;
use reception::Reception;
use report::held::held;
use report::missing_octets::missing_octets;
use std::io::Write;

// The most cells of a picture.
const MOST_CELLS: u64 = 200;

// The word of `map`: how many cells.
pub fn cells(words: &mut Words) -> Result<u64, BadWord> {
    let cells = words.last_number()?;
    if (1..=MOST_CELLS).contains(&cells) {
        Ok(cells)
    } else {
        Err(BadWord)
    }
}

// Where cell i of the file begins. The file's length is parted by the number of cells first: i times it can pass 64 bits.
fn cell_start(total: u64, cells: u64, i: u64) -> u64
    requires { (0 < cells) × ((cells ≤ 200) × (i ≤ cells)) }
    ensures { result ≡ (i * total) / cells }
{
    i * (total / cells) + i * (total % cells) / cells
}

// `#` where each octet was kept, `.` where each is missing, `+` where both are there.
fn mark(rec: Reception, list: &[u64], from: u64, to: u64) -> u8 {
    if held(rec, list, from, to) == Ok(true) {
        return b'#';
    }
    if segment_in_store(store_of(rec), list, from, to) == Ok(true) {
        return b'.';
    }
    b'+'
}

// The marks of a record whose checks are made, up to the size where it is known, and else up to progress. The file has no fewer octets
// than the picture has cells.
pub fn draw(rec: Reception, list: &[u64], asked: u64, out: &mut Output) -> Answered {
    let total = if rec.sized { rec.size } else { rec.progress };
    let cells = asked.min(total).min(MOST_CELLS);
    let mut marks = [0; 200];
    let mut from = 0;
    for i in 0..cells {
        let to = cell_start(total, cells, i + 1);
        marks[i as usize] = mark(rec, list, from, to);
        from = to;
    }
    write!(out, "map ")?;
    out.write_all(&marks[..cells as usize])?;
    Ok(writeln!(out)?)
}

// map: the checks of the record, then the marks.
pub fn map(s: &State, words: &mut Words, out: &mut Output) -> Answered {
    let asked = cells(words)?;
    missing_octets(s.rec, s.lent())?;
    draw(s.rec, s.lent(), asked, out)
}

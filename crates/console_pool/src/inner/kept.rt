// The pool, and its transfers.
ghost use Rattle.std.specs.Prelude.{◌<◌, IfOk};

use console_state::inner::failure::{Answered, Failure};
use console_state::inner::marks::Mark;
use console_state::inner::state::State;
use console_text::inner::print::Output;
use console_text::inner::words::{BadWord, Words};
use pooling::Pool;
use ranges::Width;
use reception::Reception;
use std::io::Write;

// The most ranges of a pool, the most groups of words of `pool`, and the transfers that are kept.
const MOST_RANGES: usize = 4100;

const MOST_GROUPS: usize = 9;

const KEPT: usize = 8;

// Fresh transfers, a group of three words for each: width, floor, limit. The calls refuse a pool of nine, of which eight are kept.
fn pool_in(words: &mut Words) -> Result<Pool, BadWord> {
    let mut pool = Pool::fresh(0, [Width::Wide; 8], [0; 8], [0; 8]);
    for i in 0..MOST_GROUPS {
        let Some(word) = words.next() else {
            break;
        };
        let width = Width::of(word)?;
        let floor = words.amount()?;
        let limit = words.amount()?;
        pool.used = i + 1;
        if i < KEPT {
            pool.records[i] = Reception::fresh(width);
            pool.floors[i] = floor;
            pool.limits[i] = limit;
        }
    }
    words.end()?;
    Ok(pool)
}

// pool: fresh transfers over one list of that many ranges; no timer.
pub fn pool(s: &mut State, words: &mut Words, out: &mut Output) -> Answered {
    let ranges = words.amount_to(MOST_RANGES)?;
    let pool = pool_in(words)?;
    s.clear(ranges);
    s.pool = Some(pool);
    Ok(writeln!(out, "ok")?)
}

// A transfer of the pool, by its number.
#[derive(Clone, Copy)]
pub struct Transfer {
    pub pool: Pool,
    pub number: usize,
}

impl Transfer {
    // The transfer that the next word names, in a pool alone.
    pub fn named(s: &State, words: &mut Words) -> Result<Transfer, Failure> {
        let number = words.amount()?;
        let pool = s.pool.ok_or(Failure::BadLine)?;
        Ok(Transfer { pool, number })
    }

    // Its place in the pool, if the console keeps it.
    pub fn place(self) -> Result<usize, Failure>
        ensures { IfOk result (λ place. place < KEPT) }
    {
        if self.number < self.pool.used && self.number < KEPT {
            Ok(self.number)
        } else {
            Err(Failure::BadLine)
        }
    }

    // Its numbers in the pool's list, behind those of the transfers before it.
    pub fn ranges(self, s: &State) -> Result<&[u64], Failure> {
        let i = self.place()?;
        let records = self.pool.records;
        let before = records[..i]
            .iter()
            .fold(0usize, |sum, rec| sum.saturating_add(rec.count))
            .min(MOST_RANGES);
        let list = &s.memory[2 * before..];
        let count = records[i].count.min(MOST_RANGES);
        Ok(&list[..list.len().min(2 * count)])
    }
}

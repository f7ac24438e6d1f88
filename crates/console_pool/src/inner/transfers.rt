// The commands for one transfer of a pool.
use crate::inner::kept::Transfer;
use console_calls::inner::{map, receiving, reports};
use console_pdus::inner::pdus::{Asked, show_sent};
use console_state::inner::failure::{Answered, Failure};
use console_state::inner::marks::Mark;
use console_state::inner::state::{Room, Shown, State, loaded};
use console_text::inner::print::{Numbers, Output};
use console_text::inner::words::Words;
use outcomes::Refusal;
use pool::data::pool_data_core;
use pool::eof::pool_eof_core;
use pool::metadata::pool_metadata_core;
use pool_report::held::pool_held;
use pool_report::missing_octets::pool_missing_octets;
use pool_report::sequence_of::write_pool_sequence;
use reception::Reception;
use std::io::Write;

// An accepted event of a transfer has left this: it is kept, and the transfer's record answered.
fn keep(s: &mut State, after: Transfer) -> Result<Reception, Failure> {
    s.pool = Some(after.pool);
    Ok(after.pool.records[after.place()?])
}

impl Transfer {
    pub fn data(self, s: &mut State, words: &mut Words, out: &mut Output) -> Answered {
        let (offset, length) = words.pair()?;
        let done = pool_data_core(self.pool, s.lent_mut(), self.number, offset, length);
        let did = done.answer?;
        let rec = keep(
            s,
            Transfer {
                pool: done.pool,
                ..self
            },
        )?;
        receiving::show_data(did, rec, out)
    }

    pub fn metadata(self, s: &mut State, words: &mut Words, out: &mut Output) -> Answered {
        words.end()?;
        let done = pool_metadata_core(self.pool, s.lent(), self.number);
        done.answer?;
        s.pool = Some(done.pool);
        Ok(writeln!(out, "known")?)
    }

    pub fn eof(self, s: &mut State, words: &mut Words, out: &mut Output) -> Answered {
        let size = words.last_number()?;
        let done = pool_eof_core(self.pool, s.lent_mut(), self.number, size);
        done.answer?;
        let rec = keep(
            s,
            Transfer {
                pool: done.pool,
                ..self
            },
        )?;
        receiving::show_ended(rec, out)
    }

    pub fn held(self, s: &State, words: &mut Words, out: &mut Output) -> Answered {
        let (start, end) = words.pair()?;
        let kept = pool_held(self.pool, s.lent(), self.number, start, end)?;
        reports::show_whether(kept, out)
    }

    fn missing_octets(self, s: &State) -> Result<u64, Refusal> {
        pool_missing_octets(self.pool, s.lent(), self.number)
    }

    pub fn missing(self, s: &State, words: &mut Words, out: &mut Output) -> Answered {
        words.end()?;
        reports::show_missing(self.missing_octets(s)?, out)
    }

    // map: the checks of the pool and the record, then the marks.
    pub fn draw(self, s: &State, words: &mut Words, out: &mut Output) -> Answered {
        let cells = map::cells(words)?;
        self.missing_octets(s)?;
        let rec = self.pool.records[self.place()?];
        map::draw(rec, self.ranges(s)?, cells, out)
    }

    // nak: the sequence.
    pub fn sequence(
        self,
        s: &State,
        words: &mut Words,
        room: &mut Room,
        out: &mut Output,
    ) -> Answered {
        let asked = Asked::of(words, s.link)?;
        let buf = room.octets.get_mut(..asked.length).ok_or(Failure::BadLine)?;
        let sent = write_pool_sequence(self.pool, s.lent(), self.number, asked.order, buf)?;
        show_sent(sent, buf, s.link.edition, out)
    }

    // load: as for one reception, its width as it is.
    pub fn load(self, s: &mut State, words: &mut Words, out: &mut Output) -> Answered {
        let i = self.place()?;
        let mut pool = self.pool;
        pool.records[i] = loaded(pool.records[i].width, words)?;
        s.pool = Some(pool);
        Ok(writeln!(out, "ok")?)
    }

    // show: the transfer and its numbers in the pool's list.
    pub fn show(self, s: &State, words: &mut Words, out: &mut Output) -> Answered {
        words.end()?;
        let i = self.place()?;
        let pool = self.pool;
        let rec = pool.records[i];
        let (width, floor, limit) = (rec.width.word(), pool.floors[i], pool.limits[i]);
        let ranges = Numbers(self.ranges(s)?);
        Ok(writeln!(out, "{width} {floor} {limit} {}{ranges}", Shown(rec))?)
    }
}

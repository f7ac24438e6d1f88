// The store's calls.
use crate::inner::reports::show_whether;
use answers::numbers::Numbers;
use console_state::inner::failure::{Answered, Failure};
use console_state::inner::marks::Mark;
use console_state::inner::state::{Room, State};
use console_text::inner::print::{Hex, Output};
use console_text::inner::words::Words;
use lost_segments::segment_in_store::segment_in_store;
use lost_segments::write_segments_to_bytes::write_segments_to_bytes;
use octets::LargeFileFlag;
use reception::Reception;
use segment_store::Store;
use std::io::Write;

pub fn store_of(rec: Reception) -> Store {
    Store {
        count: rec.count,
        width: rec.width,
    }
}

// An accepted change: the new count is kept, and told behind what was done.
fn changed(s: &mut State, done: &str, count: u64, out: &mut Output) -> Answered {
    s.rec.count = count as usize;
    Ok(writeln!(out, "{done} {count}")?)
}

pub fn add(s: &mut State, words: &mut Words, out: &mut Output) -> Answered {
    let (start, end) = words.pair()?;
    let st = store_of(s.rec);
    let added = lost_segments::add::add(st, s.lent_mut(), start, end)?.in_numbers();
    changed(s, "added", added.first, out)
}

pub fn remove(s: &mut State, words: &mut Words, out: &mut Output) -> Answered {
    let (start, end) = words.pair()?;
    let st = store_of(s.rec);
    let removed = lost_segments::remove::remove(st, s.lent_mut(), start, end)?.in_numbers();
    let (index, count) = (removed.second, removed.third);
    let part = match removed.first {
        0 => return changed(s, "removed none", count, out),
        1 => "whole",
        2 => "left",
        3 => "right",
        _ => "split",
    };
    s.rec.count = count as usize;
    Ok(writeln!(out, "removed {part} {index} {count}")?)
}

pub fn coalesce(s: &mut State, words: &mut Words, out: &mut Output) -> Answered {
    words.end()?;
    let st = store_of(s.rec);
    let coalesced = lost_segments::coalesce::coalesce(st, s.lent_mut())?.in_numbers();
    changed(s, "coalesced", coalesced.first, out)
}

pub fn insert(s: &mut State, words: &mut Words, out: &mut Output) -> Answered {
    let (start, end) = words.pair()?;
    let st = store_of(s.rec);
    let inserted = lost_segments::insert::insert(st, s.lent_mut(), start, end)?.in_numbers();
    changed(s, "inserted", inserted.first, out)
}

pub fn within(s: &State, words: &mut Words, out: &mut Output) -> Answered {
    let (start, end) = words.pair()?;
    let found = segment_in_store(store_of(s.rec), s.lent(), start, end)?;
    show_whether(found, out)
}

pub fn octets(s: &State, words: &mut Words, room: &mut Room, out: &mut Output) -> Answered {
    let flag = LargeFileFlag::of(words.word()?)?;
    let length = words.amount()?;
    words.end()?;
    let buf = room.octets.get_mut(..length).ok_or(Failure::BadLine)?;
    write_segments_to_bytes(store_of(s.rec), s.lent(), buf, flag)?;
    Ok(writeln!(out, "octets {}", Hex(buf))?)
}

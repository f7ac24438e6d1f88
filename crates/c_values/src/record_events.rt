// The three events on C's record by value, whole.
ghost use Rattle.std.specs.Prelude.{◌≡◌};
ghost use Rattle.reception.specs.Data.{data_outcome, data_record, data_list};
ghost use Rattle.reception.specs.Metadata.{metadata_outcome, metadata_record};
ghost use Rattle.reception.specs.Eof.{eof_outcome, eof_record, eof_list};
ghost use Rattle.answers.specs.Answer.{answer_of};
ghost use Rattle.c_values.specs.Input.{record_in};
ghost use Rattle.c_values.specs.Output.{advanced_to, marked_by, ended_by};

use crate::PusmarkeReception;
use answers::PusmarkeAnswer;
use event_cores::data::data_core;
use event_cores::eof::eof_core;
use event_cores::metadata::metadata_core;
use reception::Reception;

// What an event leaves: the answer, and C's record.
#[derive(Clone, Copy)]
pub struct EventOut {
    pub answer: PusmarkeAnswer,
    pub rec: PusmarkeReception,
}

// The data event on C's record by value.
pub fn data_whole(rec: PusmarkeReception, list: &mut [u64], offset: u64, length: u64) -> EventOut
    ensures { (result.answer ≡ answer_of (data_outcome (record_in rec) list.old offset length))
        × ((result.rec ≡ advanced_to (data_record (record_in rec) list.old offset length) rec)
        × (list.new ≡ data_list (record_in rec) list.old offset length)) }
{
    let done = data_core(Reception::from(rec), list, offset, length);
    EventOut {
        answer: PusmarkeAnswer::from(done.answer),
        rec: rec.advanced_to(done.rec),
    }
}

// The metadata event on C's record by value.
pub fn metadata_whole(rec: PusmarkeReception, list: &[u64]) -> EventOut
    ensures { (result.answer ≡ answer_of (metadata_outcome (record_in rec) list.now))
        × (result.rec ≡ marked_by (metadata_record (record_in rec) list.now) rec) }
{
    let done = metadata_core(Reception::from(rec), list);
    EventOut {
        answer: PusmarkeAnswer::from(done.answer),
        rec: rec.marked_by(done.rec),
    }
}

// The EOF event on C's record by value.
pub fn eof_whole(rec: PusmarkeReception, list: &mut [u64], size: u64) -> EventOut
    ensures { (result.answer ≡ answer_of (eof_outcome (record_in rec) list.old size))
        × ((result.rec ≡ ended_by (eof_outcome (record_in rec) list.old size) (eof_record (record_in rec) list.old size) rec)
        × (list.new ≡ eof_list (record_in rec) list.old size)) }
{
    let done = eof_core(Reception::from(rec), list, size);
    EventOut {
        answer: PusmarkeAnswer::from(done.answer),
        rec: rec.ended_by(done.answer, done.rec),
    }
}

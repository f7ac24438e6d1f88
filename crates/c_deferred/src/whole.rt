// The three events on C's timer and C's record by value, whole.
ghost use Rattle.std.specs.Prelude.{◌≡◌};
ghost use Rattle.reception.specs.Data.{data_outcome, data_record, data_list};
ghost use Rattle.reception.specs.Metadata.{metadata_outcome, metadata_record};
ghost use Rattle.reception.specs.Eof.{eof_outcome, eof_record, eof_list};
ghost use Rattle.reception.specs.History.{Data, Metadata, Eof};
ghost use Rattle.deferring.specs.Hear.{state_of, heard};
ghost use Rattle.c_values.specs.Input.{record_in};
ghost use Rattle.c_values.specs.Output.{advanced_to, marked_by, ended_by};
ghost use Rattle.c_deferred.specs.Timer.{timer_in, timer_out};
ghost use Rattle.c_deferred.specs.Heard.{heard_out};

use crate::{HeardOut, PusmarkeDeferred, PusmarkeHeard};
use c_values::PusmarkeReception;
use deferred::data::deferred_data_core;
use deferred::eof::deferred_eof_core;
use deferred::metadata::deferred_metadata_core;
use deferring::Deferred;
use reception::Reception;

pub fn data_whole(
    rec: PusmarkeReception,
    list: &mut [u64],
    offset: u64,
    length: u64,
    timer: PusmarkeDeferred,
) -> HeardOut
    ensures { (result.heard ≡ heard_out (data_outcome (record_in rec) list.old offset length)
        (timer_out (heard (timer_in timer) (state_of (record_in rec) list.old) (Data offset length))))
        × ((result.rec ≡ advanced_to (data_record (record_in rec) list.old offset length) rec)
        × (list.new ≡ data_list (record_in rec) list.old offset length)) }
{
    let own = Deferred::from(timer);
    let done = deferred_data_core(own, Reception::from(rec), list, offset, length);
    HeardOut {
        heard: PusmarkeHeard::from(done.heard),
        rec: rec.advanced_to(done.rec),
    }
}

// The list is only read.
pub fn metadata_whole(rec: PusmarkeReception, list: &[u64], timer: PusmarkeDeferred) -> HeardOut
    ensures { (result.heard ≡ heard_out (metadata_outcome (record_in rec) list.now) (timer_out (heard (timer_in timer) (state_of (record_in rec) list.now) Metadata)))
        × (result.rec ≡ marked_by (metadata_record (record_in rec) list.now) rec) }
{
    let known = deferred_metadata_core(Deferred::from(timer), Reception::from(rec), list);
    HeardOut {
        heard: PusmarkeHeard::from(known.heard),
        rec: rec.marked_by(known.rec),
    }
}

pub fn eof_whole(
    rec: PusmarkeReception,
    list: &mut [u64],
    size: u64,
    timer: PusmarkeDeferred,
) -> HeardOut
    ensures { (result.heard ≡ heard_out (eof_outcome (record_in rec) list.old size) (timer_out (heard (timer_in timer) (state_of (record_in rec) list.old) (Eof size))))
        × ((result.rec ≡ ended_by (eof_outcome (record_in rec) list.old size) (eof_record (record_in rec) list.old size) rec)
        × (list.new ≡ eof_list (record_in rec) list.old size)) }
{
    let ended = deferred_eof_core(Deferred::from(timer), Reception::from(rec), list, size);
    HeardOut {
        heard: PusmarkeHeard::from(ended.heard),
        rec: rec.ended_by(ended.heard.answer, ended.rec),
    }
}

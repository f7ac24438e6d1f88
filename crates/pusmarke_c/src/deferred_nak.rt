// The deferred NAK procedure: its timer, which C keeps by value, and the events on a record that C keeps with that timer.
ghost use Rattle.std.specs.Prelude.{◌≡◌};
ghost use Rattle.reception.specs.Data.{data_outcome, data_record, data_list};
ghost use Rattle.reception.specs.Metadata.{metadata_outcome, metadata_record};
ghost use Rattle.reception.specs.Eof.{eof_outcome, eof_record, eof_list};
ghost use Rattle.reception.specs.History.{Data, Metadata, Eof};
ghost use Rattle.deferring.specs.Make.{made};
ghost use Rattle.deferring.specs.Tick.{ticked};
ghost use Rattle.deferring.specs.Reset.{reset_outcome, reset_timer};
ghost use Rattle.deferring.specs.Hear.{state_of, heard};
ghost use Rattle.c_values.specs.Input.{record_in};
ghost use Rattle.c_values.specs.Output.{advanced_to, marked_by, ended_by};
ghost use Rattle.c_deferred.specs.Timer.{timer_in, timer_out};
ghost use Rattle.c_deferred.specs.Heard.{heard_out, made_out, tick_out};

use c_deferred::timer::{make_out, reset_out, tick_out};
use c_deferred::whole::{data_whole, eof_whole, metadata_whole};
use c_deferred::{PusmarkeDeferred, PusmarkeHeard};
use c_values::PusmarkeReception;

// A timer of countdowns of d ticks, and its limit.
#[unsafe(no_mangle)]
pub extern "C" fn pusmarke_deferred(d: u64, limit: u64) -> PusmarkeHeard
    ensures { result ≡ made_out (made d limit) }
{
    make_out(d, limit)
}

#[unsafe(no_mangle)]
pub extern "C" fn pusmarke_tick(timer: PusmarkeDeferred) -> PusmarkeHeard
    ensures { result ≡ tick_out (ticked (timer_in timer)) }
{
    tick_out(timer)
}

// Record and list are only read.
#[unsafe(no_mangle)]
pub extern "C" fn pusmarke_reset(
    timer: PusmarkeDeferred,
    rec: PusmarkeReception,
    list: &[u64],
) -> PusmarkeHeard
    ensures { result ≡ heard_out (reset_outcome (record_in rec) list.now) (timer_out (reset_timer (timer_in timer) (record_in rec) list.now)) }
{
    reset_out(timer, rec, list)
}

// The data event with its timer: the record and the list change as pusmarke_data changes them.
#[unsafe(no_mangle)]
pub extern "C" fn pusmarke_deferred_data(
    rec: &mut PusmarkeReception,
    list: &mut [u64],
    offset: u64,
    length: u64,
    timer: PusmarkeDeferred,
) -> PusmarkeHeard
    ensures { (result ≡ heard_out (data_outcome (record_in rec.old) list.old offset length)
        (timer_out (heard (timer_in timer) (state_of (record_in rec.old) list.old) (Data offset length))))
        × ((rec.new ≡ advanced_to (data_record (record_in rec.old) list.old offset length) rec.old)
        × (list.new ≡ data_list (record_in rec.old) list.old offset length)) }
{
    let done = data_whole(*rec, list, offset, length, timer);
    *rec = done.rec;
    done.heard
}

// The metadata event with its timer: the list is only read.
#[unsafe(no_mangle)]
pub extern "C" fn pusmarke_deferred_metadata(
    rec: &mut PusmarkeReception,
    list: &[u64],
    timer: PusmarkeDeferred,
) -> PusmarkeHeard
    ensures { (result ≡ heard_out (metadata_outcome (record_in rec.old) list.now)
        (timer_out (heard (timer_in timer) (state_of (record_in rec.old) list.now) Metadata)))
        × (rec.new ≡ marked_by (metadata_record (record_in rec.old) list.now) rec.old) }
{
    let done = metadata_whole(*rec, list, timer);
    *rec = done.rec;
    done.heard
}

// The EOF event with its timer.
#[unsafe(no_mangle)]
pub extern "C" fn pusmarke_deferred_eof(
    rec: &mut PusmarkeReception,
    list: &mut [u64],
    size: u64,
    timer: PusmarkeDeferred,
) -> PusmarkeHeard
    ensures { (result ≡ heard_out (eof_outcome (record_in rec.old) list.old size)
        (timer_out (heard (timer_in timer) (state_of (record_in rec.old) list.old) (Eof size))))
        × ((rec.new ≡ ended_by (eof_outcome (record_in rec.old) list.old size) (eof_record (record_in rec.old) list.old size) rec.old)
        × (list.new ≡ eof_list (record_in rec.old) list.old size)) }
{
    let done = eof_whole(*rec, list, size, timer);
    *rec = done.rec;
    done.heard
}

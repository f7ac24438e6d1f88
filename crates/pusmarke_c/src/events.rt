// The reception events on a record that C keeps.
ghost use Rattle.std.specs.Prelude.{◌≡◌};
ghost use Rattle.reception.specs.Record.{fresh_record};
ghost use Rattle.reception.specs.Data.{data_outcome, data_record, data_list};
ghost use Rattle.reception.specs.Metadata.{metadata_outcome, metadata_record};
ghost use Rattle.reception.specs.Eof.{eof_outcome, eof_record, eof_list};
ghost use Rattle.answers.specs.Answer.{answer_of};
ghost use Rattle.c_values.specs.Input.{width_in, record_in};
ghost use Rattle.c_values.specs.Output.{record_out, advanced_to, marked_by, ended_by};

use answers::PusmarkeAnswer;
use c_values::PusmarkeReception;
use c_values::record_events::{data_whole, eof_whole, metadata_whole};

#[unsafe(no_mangle)]
pub extern "C" fn pusmarke_fresh(narrow: u64) -> PusmarkeReception
    ensures { result ≡ record_out narrow (fresh_record (width_in narrow)) }
{
    PusmarkeReception::fresh(narrow)
}

// The data event: count and progress of the record change where they lie; narrow and missing stay as handed over.
#[unsafe(no_mangle)]
pub extern "C" fn pusmarke_data(
    rec: &mut PusmarkeReception,
    list: &mut [u64],
    offset: u64,
    length: u64,
) -> PusmarkeAnswer
    ensures { (result ≡ answer_of (data_outcome (record_in rec.old) list.old offset length))
        × ((rec.new ≡ advanced_to (data_record (record_in rec.old) list.old offset length) rec.old)
        × (list.new ≡ data_list (record_in rec.old) list.old offset length)) }
{
    let done = data_whole(*rec, list, offset, length);
    *rec = done.rec;
    done.answer
}

// The metadata event: the mark is cleared where it lies; the list is only read.
#[unsafe(no_mangle)]
pub extern "C" fn pusmarke_metadata(rec: &mut PusmarkeReception, list: &[u64]) -> PusmarkeAnswer
    ensures { (result ≡ answer_of (metadata_outcome (record_in rec.old) list.now))
        × (rec.new ≡ marked_by (metadata_record (record_in rec.old) list.now) rec.old) }
{
    let done = metadata_whole(*rec, list);
    *rec = done.rec;
    done.answer
}

// The EOF event: progress, count and size of the record change where they lie, and its mark; narrow and missing stay as handed over.
#[unsafe(no_mangle)]
pub extern "C" fn pusmarke_eof(
    rec: &mut PusmarkeReception,
    list: &mut [u64],
    size: u64,
) -> PusmarkeAnswer
    ensures { (result ≡ answer_of (eof_outcome (record_in rec.old) list.old size))
        × ((rec.new ≡ ended_by (eof_outcome (record_in rec.old) list.old size) (eof_record (record_in rec.old) list.old size) rec.old)
        × (list.new ≡ eof_list (record_in rec.old) list.old size)) }
{
    let done = eof_whole(*rec, list, size);
    *rec = done.rec;
    done.answer
}

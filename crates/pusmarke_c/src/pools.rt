// Several transfers that share one list, on a pool that C keeps.
ghost use Rattle.std.specs.Prelude.{◌≡◌, length};
ghost use Rattle.reception.specs.History.{Data, Metadata, Eof};
ghost use Rattle.pooling.specs.Events.{event_outcome, event_list};
ghost use Rattle.pool_report.specs.Report.{pool_held_outcome, pool_missing_outcome, pool_sequence_outcome, pool_sequence_buffer};
ghost use Rattle.sequence.specs.Sequence.{order};
ghost use Rattle.answers.specs.Answer.{answer_of};
ghost use Rattle.c_values.specs.Input.{identity_in, form_in};
ghost use Rattle.c_pool.specs.Input.{pool_in};
ghost use Rattle.c_pool.specs.Output.{empty_pool, added, pool_after};

use answers::PusmarkeAnswer;
use c_pool::PusmarkePool;
use c_pool::transfers::{empty_pool, one_more};
use c_pool::whole::{pool_data_whole, pool_eof_whole, pool_metadata_whole};
use c_values::{PusmarkeForm, PusmarkeIdentity};
use nak::{Form, Identity};
use pool_report::held::pool_held;
use pool_report::missing_octets::pool_missing_octets;
use pool_report::sequence_of::write_pool_sequence;
use pooling::Pool;
use sequence::Order;

// A pool without transfers.
#[unsafe(no_mangle)]
pub extern "C" fn pusmarke_pool_fresh() -> PusmarkePool
    ensures { result ≡ empty_pool }
{
    empty_pool()
}

// The pool with one transfer more. A ninth makes a pool that every call refuses.
#[unsafe(no_mangle)]
pub extern "C" fn pusmarke_pool_add(
    pool: PusmarkePool,
    narrow: u64,
    floor: usize,
    limit: usize,
) -> PusmarkePool
    ensures { result ≡ added pool narrow floor limit }
{
    one_more(pool, narrow, floor, limit)
}

// The data event of transfer i: its record changes where it lies; all else stays as handed over.
#[unsafe(no_mangle)]
pub extern "C" fn pusmarke_pool_data(
    pool: &mut PusmarkePool,
    list: &mut [u64],
    i: usize,
    offset: u64,
    length: u64,
) -> PusmarkeAnswer
    ensures { (result ≡ answer_of (event_outcome (pool_in pool.old) list.old i (Data offset length)))
        × ((pool.new ≡ pool_after pool.old list.old i (Data offset length))
        × (list.new ≡ event_list (pool_in pool.old) list.old i (Data offset length))) }
{
    let done = pool_data_whole(*pool, list, i, offset, length);
    *pool = done.pool;
    done.answer
}

// The metadata event of transfer i; the list is only read.
#[unsafe(no_mangle)]
pub extern "C" fn pusmarke_pool_metadata(
    pool: &mut PusmarkePool,
    list: &[u64],
    i: usize,
) -> PusmarkeAnswer
    ensures { (result ≡ answer_of (event_outcome (pool_in pool.old) list.now i Metadata))
        × (pool.new ≡ pool_after pool.old list.now i Metadata) }
{
    let done = pool_metadata_whole(*pool, list, i);
    *pool = done.pool;
    done.answer
}

// The EOF event of transfer i.
#[unsafe(no_mangle)]
pub extern "C" fn pusmarke_pool_eof(
    pool: &mut PusmarkePool,
    list: &mut [u64],
    i: usize,
    size: u64,
) -> PusmarkeAnswer
    ensures { (result ≡ answer_of (event_outcome (pool_in pool.old) list.old i (Eof size)))
        × ((pool.new ≡ pool_after pool.old list.old i (Eof size))
        × (list.new ≡ event_list (pool_in pool.old) list.old i (Eof size))) }
{
    let done = pool_eof_whole(*pool, list, i, size);
    *pool = done.pool;
    done.answer
}

// Pool and list are only read.
#[unsafe(no_mangle)]
pub extern "C" fn pusmarke_pool_held(
    pool: PusmarkePool,
    list: &[u64],
    i: usize,
    start: u64,
    end: u64,
) -> PusmarkeAnswer
    ensures { result ≡ answer_of (pool_held_outcome (pool_in pool) list.now i start end) }
{
    PusmarkeAnswer::from(pool_held(Pool::from(pool), list, i, start, end))
}

#[unsafe(no_mangle)]
pub extern "C" fn pusmarke_pool_missing_octets(
    pool: PusmarkePool,
    list: &[u64],
    i: usize,
) -> PusmarkeAnswer
    ensures { result ≡ answer_of (pool_missing_outcome (pool_in pool) list.now i) }
{
    PusmarkeAnswer::from(pool_missing_octets(Pool::from(pool), list, i))
}

#[unsafe(no_mangle)]
pub extern "C" fn pusmarke_pool_nak_sequence(
    pool: PusmarkePool,
    list: &[u64],
    i: usize,
    identity: PusmarkeIdentity,
    form: PusmarkeForm,
    largest: usize,
    cursor: usize,
    budget: usize,
    buf: &mut [u8],
) -> PusmarkeAnswer
    ensures value { result ≡ answer_of (pool_sequence_outcome (pool_in pool) list.now i (order (identity_in identity) (form_in form) largest cursor budget) (length buf.old)) }
    ensures buf_after { buf.new ≡ pool_sequence_buffer (pool_in pool) list.now i (order (identity_in identity) (form_in form) largest cursor budget) buf.old }
{
    let order = Order {
        identity: Identity::from(identity),
        form: Form::from(form),
        largest,
        cursor,
        budget,
    };
    PusmarkeAnswer::from(write_pool_sequence(Pool::from(pool), list, i, order, buf))
}

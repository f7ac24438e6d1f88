// The store's six calls. The list is flat, start and end by turns; `count` pairs of it are counted.
ghost use Rattle.std.specs.Prelude.{◌≡◌};
ghost use Rattle.segment_store.specs.Add.{add_outcome, add_list};
ghost use Rattle.segment_store.specs.Remove.{remove_outcome, remove_list};
ghost use Rattle.segment_store.specs.Coalesce.{coalesce_outcome, coalesce_list};
ghost use Rattle.segment_store.specs.Insert.{insert_outcome, insert_list};
ghost use Rattle.segment_store.specs.SegmentInStore.{in_store_outcome};
ghost use Rattle.segment_store.specs.WriteSegmentsToBytes.{to_bytes_outcome, to_bytes_buffer};
ghost use Rattle.c_values.specs.Input.{store_of, flag_in};
ghost use Rattle.answers.specs.Answer.{answer_of};

use answers::PusmarkeAnswer;
use c_values::inner::{flag_in, store_of};
use lost_segments::add::add;
use lost_segments::coalesce::coalesce;
use lost_segments::insert::insert;
use lost_segments::remove::remove;
use lost_segments::segment_in_store::segment_in_store;
use lost_segments::write_segments_to_bytes::write_segments_to_bytes;

#[unsafe(no_mangle)]
pub extern "C" fn pusmarke_add(
    list: &mut [u64],
    count: usize,
    narrow: u64,
    start: u64,
    end: u64,
) -> PusmarkeAnswer
    ensures value { result ≡ answer_of (add_outcome list.old (store_of count narrow) start end) }
    ensures list_after { list.new ≡ add_list list.old (store_of count narrow) start end }
{
    PusmarkeAnswer::from(add(store_of(count, narrow), list, start, end))
}

#[unsafe(no_mangle)]
pub extern "C" fn pusmarke_remove(
    list: &mut [u64],
    count: usize,
    narrow: u64,
    start: u64,
    end: u64,
) -> PusmarkeAnswer
    ensures value { result ≡ answer_of (remove_outcome list.old (store_of count narrow) start end) }
    ensures list_after { list.new ≡ remove_list list.old (store_of count narrow) start end }
{
    PusmarkeAnswer::from(remove(store_of(count, narrow), list, start, end))
}

#[unsafe(no_mangle)]
pub extern "C" fn pusmarke_coalesce(list: &mut [u64], count: usize, narrow: u64) -> PusmarkeAnswer
    ensures value { result ≡ answer_of (coalesce_outcome list.old (store_of count narrow)) }
    ensures list_after { list.new ≡ coalesce_list list.old (store_of count narrow) }
{
    PusmarkeAnswer::from(coalesce(store_of(count, narrow), list))
}

#[unsafe(no_mangle)]
pub extern "C" fn pusmarke_insert(
    list: &mut [u64],
    count: usize,
    narrow: u64,
    start: u64,
    end: u64,
) -> PusmarkeAnswer
    ensures value { result ≡ answer_of (insert_outcome list.old (store_of count narrow) start end) }
    ensures list_after { list.new ≡ insert_list list.old (store_of count narrow) start end }
{
    PusmarkeAnswer::from(insert(store_of(count, narrow), list, start, end))
}

#[unsafe(no_mangle)]
pub extern "C" fn pusmarke_segment_in_store(
    list: &[u64],
    count: usize,
    narrow: u64,
    start: u64,
    end: u64,
) -> PusmarkeAnswer
    ensures { result ≡ answer_of (in_store_outcome list.now (store_of count narrow) start end) }
{
    PusmarkeAnswer::from(segment_in_store(store_of(count, narrow), list, start, end))
}

#[unsafe(no_mangle)]
pub extern "C" fn pusmarke_write_segments_to_bytes(
    list: &[u64],
    count: usize,
    narrow: u64,
    large: u64,
    buf: &mut [u8],
) -> PusmarkeAnswer
    ensures value { result ≡ answer_of (to_bytes_outcome list.now (store_of count narrow) (flag_in large) buf.old) }
    ensures buf_after { buf.new ≡ to_bytes_buffer list.now (store_of count narrow) (flag_in large) buf.old }
{
    PusmarkeAnswer::from(write_segments_to_bytes(
        store_of(count, narrow),
        list,
        buf,
        flag_in(large),
    ))
}

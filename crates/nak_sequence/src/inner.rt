// Inner: the PDUs of a sequence, written one after the other. Each function asks for what the call has checked.
ghost use Rattle.std.specs.Prelude.{◌≡◌, ◌||◌, ◌+◌, ◌*◌, ◌-◌, ◌<◌, ◌≤◌, min, ltb, length};
ghost use Rattle.octets.specs.Octets.{with_octets};
ghost use Rattle.nak.specs.Inner.{GoodLengths, entries};
ghost use Rattle.nak.specs.Pdu.{pdu, saying, is_too_small};
ghost use Rattle.ranges.specs.Store.{most_pairs};
ghost use Rattle.nak.specs.Writer.{largest_pdu};
ghost use Rattle.sequence.specs.Entries.{asking_for, entries_in, end_of, scope_start, rounded_up, nak_at, naks, octets_of, scope_end_of};
ghost use Rattle.nak_sequence.specs.Inner.{entry_count, Listed};

use nak::{Asked, LARGEST_PDU};
use nak_checks::inner::lengths::too_small;
use nak_writer::inner::write_at;
use reception::Reception;
use sequence::Order;

// Whether the largest PDU is too large, or has no room for one request.
pub fn bad_size(order: Order) -> bool
    requires { GoodLengths order.identity }
    ensures { result ≡ (ltb largest_pdu order.largest || is_too_small order.form order.identity order.largest) }
{
    LARGEST_PDU < order.largest || too_small(order.identity, order.form, order.largest)
}

// E: how many entries there are.
pub fn entry_count(rec: Reception) -> usize
    requires { rec.count ≤ most_pairs }
    ensures { result ≡ entry_count rec }
{
    if rec.missing {
        rec.count + 1
    } else {
        rec.count
    }
}

// The end of entry i.
fn entry_end(rec: Reception, list: &[u64], i: usize) -> u64
    requires { Listed rec list.now × (i < entry_count rec) }
    ensures { result ≡ end_of (entries_in rec list.now) i }
{
    if rec.missing {
        if i == 0 {
            return 0;
        }
        let l = i - 1;
        return list[2 * l + 1];
    }
    list[2 * i + 1]
}

// The scope start of the PDU from entry f on.
fn scope_start(rec: Reception, list: &[u64], f: usize) -> u64
    requires { Listed rec list.now × (f < entry_count rec) }
    ensures { result ≡ scope_start (entries_in rec list.now) f }
{
    if f == 0 {
        return 0;
    }
    entry_end(rec, list, f - 1)
}

// The scope end of the PDU from entry f on: the end of its last entry, or progress where that is the last of all.
fn scope_end(rec: Reception, list: &[u64], k: usize, f: usize) -> u64
    requires { Listed rec list.now × ((1 ≤ k) × ((k ≤ largest_pdu) × (f < entry_count rec))) }
    ensures { result ≡ scope_end_of (entries_in rec list.now) rec.progress k f }
{
    if f + k < entry_count(rec) {
        return entry_end(rec, list, f + k - 1);
    }
    rec.progress
}

// A PDU of this scope, written from place `at` on: the metadata request, where it is asked for, and `count` pairs of the list from
// pair `first` on. Hands back the place behind it.
fn write_from(
    buf: &mut [u8],
    at: usize,
    order: Order,
    start: u64,
    end: u64,
    metadata: bool,
    list: &[u64],
    first: usize,
    count: usize,
) -> usize
    requires { GoodLengths order.identity × (2 * first + 2 * count ≤ length list.now)
        × (at + length (pdu (saying order.form order.identity start end (entries metadata list.now first count))) ≤ length buf.old) }
    ensures { (result ≡ at + length (pdu (saying order.form order.identity start end (entries metadata list.now first count))))
        × (buf.new ≡ with_octets buf.old at (pdu (saying order.form order.identity start end (entries metadata list.now first count)))) }
{
    let requests = &list[2 * first..2 * (first + count)];
    let asked = Asked {
        start,
        end,
        metadata,
        requests,
    };
    write_at(buf, at, order.identity, order.form, asked)
}

// The PDU from entry f on, written from place `at` on; hands back the place behind it.
fn write_pdu(
    buf: &mut [u8],
    at: usize,
    rec: Reception,
    list: &[u64],
    order: Order,
    k: usize,
    f: usize,
) -> usize
    requires good_lengths { GoodLengths order.identity × (Listed rec list.now × ((1 ≤ k) × ((k ≤ largest_pdu) × (f < entry_count rec)))) }
    requires f_in_bounds { at + length (pdu (nak_at (asking_for rec list.now order.form order.identity k) f)) ≤ length buf.old }
    ensures value { result ≡ at + length (pdu (nak_at (asking_for rec list.now order.form order.identity k) f)) }
    ensures buf_after { buf.new ≡ with_octets buf.old at (pdu (nak_at (asking_for rec list.now order.form order.identity k) f)) }
{
    let start = scope_start(rec, list, f);
    let end = scope_end(rec, list, k, f);
    let m = k.min(entry_count(rec) - f);
    if rec.missing {
        if f == 0 {
            return write_from(buf, at, order, start, end, true, list, 0, m - 1);
        }
        return write_from(buf, at, order, start, end, false, list, f - 1, m);
    }
    write_from(buf, at, order, start, end, false, list, f, m)
}

// The PDUs from the order's entry on, `pdus` of them, written from the buffer's front; hands back the octets written.
pub fn write_pdus(
    buf: &mut [u8],
    rec: Reception,
    list: &[u64],
    order: Order,
    k: usize,
    pdus: usize,
) -> usize
    requires good_lengths { GoodLengths order.identity × (Listed rec list.now × ((1 ≤ k) × ((k ≤ largest_pdu) × (pdus ≤ rounded_up (entry_count rec - order.cursor) k)))) }
    requires pdus_in_bounds { length (octets_of (naks (asking_for rec list.now order.form order.identity k) order.cursor pdus)) ≤ length buf.old }
    ensures value { result ≡ length (octets_of (naks (asking_for rec list.now order.form order.identity k) order.cursor pdus)) }
    ensures buf_after { buf.new ≡ with_octets buf.old 0 (octets_of (naks (asking_for rec list.now order.form order.identity k) order.cursor pdus)) }
{
    let mut at = 0;
    let mut f = order.cursor;
    for _ in 0..pdus {
        at = write_pdu(buf, at, rec, list, order, k, f);
        f += k;
    }
    at
}

// Inner: C's numbers read as the calls' types, and marks.
ghost use Rattle.std.specs.Prelude.{◌≡◌};
ghost use Rattle.c_values.specs.Input.{is_set, width_in, flag_in, edition_in, form_in, store_of, record_in, identity_in};
ghost use Rattle.c_values.specs.Output.{mark_of};

use crate::{PusmarkeForm, PusmarkeIdentity, PusmarkeReception};
use nak::{Edition, Form, Identity};
use octets::LargeFileFlag;
use ranges::Width;
use reception::Reception;
use segment_store::Store;

pub fn is_set(mark: u64) -> bool
    ensures { result ≡ is_set mark }
{
    mark != 0
}

pub fn mark_of(on: bool) -> u64
    ensures { result ≡ mark_of on }
{
    u64::from(on)
}

pub fn width_in(narrow: u64) -> Width
    ensures { result ≡ width_in narrow }
{
    if is_set(narrow) {
        Width::Narrow
    } else {
        Width::Wide
    }
}

pub fn flag_in(large: u64) -> LargeFileFlag
    ensures { result ≡ flag_in large }
{
    if is_set(large) {
        LargeFileFlag::Large
    } else {
        LargeFileFlag::Normal
    }
}

pub fn edition_in(older: u64) -> Edition
    ensures { result ≡ edition_in older }
{
    if is_set(older) {
        Edition::Older
    } else {
        Edition::Newer
    }
}

impl From<PusmarkeForm> for Form {
    ghost from_gives = { λ c form. form ≡ form_in c };

    fn from(form: PusmarkeForm) -> Form {
        Form {
            edition: edition_in(form.older),
            flag: flag_in(form.large),
            crc: is_set(form.crc),
        }
    }
}

pub fn store_of(count: usize, narrow: u64) -> Store
    ensures { result ≡ store_of count narrow }
{
    Store {
        count,
        width: width_in(narrow),
    }
}

impl From<PusmarkeReception> for Reception {
    ghost from_gives = { λ c rec. rec ≡ record_in c };

    fn from(rec: PusmarkeReception) -> Reception {
        Reception {
            progress: rec.progress,
            count: rec.count,
            width: width_in(rec.narrow),
            missing: is_set(rec.missing),
            sized: is_set(rec.sized),
            size: rec.size,
        }
    }
}

impl From<PusmarkeIdentity> for Identity {
    ghost from_gives = { λ c identity. identity ≡ identity_in c };

    fn from(identity: PusmarkeIdentity) -> Identity {
        Identity {
            entity_length: identity.entity_length,
            number_length: identity.number_length,
            source: identity.source,
            number: identity.number,
            destination: identity.destination,
        }
    }
}

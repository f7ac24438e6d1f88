// C's values: what the numbers that C hands over stand for, and what it is handed back besides answers.
#![tactic(auto)]

ghost use Rattle.std.specs.Prelude.{◌≡◌};
ghost use Rattle.reception.specs.Eof.{eof_case};
ghost use Rattle.reception.specs.Record.{fresh_record};
ghost use Rattle.c_values.specs.Input.{width_in};
ghost use Rattle.c_values.specs.Output.{record_out, advanced_to, marked_by, mark_after, ended_by};

use outcomes::Refusal;
use reception::Reception;

pub mod inner; // inner.rt: C's numbers read as the calls' types
pub mod pdu; // pdu.rt: what reading and a step hand back
pub mod record_events; // record_events.rt: the three events on C's record

// The record of a reception. Of `narrow`, `missing` and `sized`, 0 is no and any other number is yes.
#[repr(C)]
#[derive(Clone, Copy)]
pub struct PusmarkeReception {
    pub progress: u64,
    pub count: usize,
    pub narrow: u64,
    pub missing: u64,
    pub sized: u64,
    pub size: u64,
}

// C's mark: as handed over while metadata is missing, and then 0.
pub fn mark_after(missing: u64, still: bool) -> u64
    ensures { result ≡ mark_after missing still }
{
    if still { missing } else { 0 }
}

impl PusmarkeReception {
    // A fresh record, of the width that the mark says.
    pub fn fresh(narrow: u64) -> PusmarkeReception
        ensures { result ≡ record_out narrow (fresh_record (width_in narrow)) }
    {
        let rec = Reception::fresh(inner::width_in(narrow));
        PusmarkeReception {
            progress: rec.progress,
            count: rec.count,
            narrow,
            missing: u64::from(rec.missing),
            sized: u64::from(rec.sized),
            size: rec.size,
        }
    }

    // After a data event that leaves the record `after`.
    pub fn advanced_to(self, after: Reception) -> PusmarkeReception
        ensures { result ≡ advanced_to after self }
    {
        PusmarkeReception {
            progress: after.progress,
            count: after.count,
            ..self
        }
    }

    // After a metadata event that leaves the record `after`: only the mark may change.
    pub fn marked_by(self, after: Reception) -> PusmarkeReception
        ensures { result ≡ marked_by after self }
    {
        PusmarkeReception {
            missing: mark_after(self.missing, after.missing),
            ..self
        }
    }

    // After an EOF event that answers this and leaves the record `after`: the mark of the size is 1 once it is accepted.
    pub fn ended_by(self, answer: Result<(), Refusal>, after: Reception) -> PusmarkeReception
        ensures { result ≡ ended_by (eof_case answer) after self }
    {
        PusmarkeReception {
            sized: if answer.is_ok() { 1 } else { self.sized },
            size: after.size,
            ..self.advanced_to(after)
        }
    }
}

#[repr(C)]
#[derive(Clone, Copy)]
pub struct PusmarkeIdentity {
    pub entity_length: usize,
    pub number_length: usize,
    pub source: u64,
    pub number: u64,
    pub destination: u64,
}

// The form of a PDU: of `older`, `large` and `crc`, 0 is no and any other number is yes.
#[repr(C)]
#[derive(Clone, Copy)]
pub struct PusmarkeForm {
    pub older: u64,
    pub large: u64,
    pub crc: u64,
}

// What reading hands back; refusal 3 carries `start` and `end`.
#[repr(C)]
#[derive(Clone, Copy)]
pub struct PusmarkeNak {
    pub refusal: u64,
    pub start: u64,
    pub end: u64,
    pub identity: PusmarkeIdentity,
    pub large: u64,
    pub crc: u64,
    pub scope_start: u64,
    pub scope_end: u64,
    pub from: usize,
    pub to: usize,
    pub next: usize,
}

// What a step finds: 1 and a request, or 0 at the end; and the place after it.
#[repr(C)]
#[derive(Clone, Copy)]
pub struct PusmarkeStep {
    pub found: u64,
    pub start: u64,
    pub end: u64,
    pub at: usize,
}

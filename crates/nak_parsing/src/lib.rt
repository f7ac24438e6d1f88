// Reading one NAK PDU: what it hands back, and what a step of a reader finds. The calls are in the crate nak_parser.
#![tactic(auto)]

use nak::{Form, Identity};

pub mod inner;

// What an accepted packet says, and where its requests stand.
#[derive(Clone, Copy)]
pub struct Said {
    pub identity: Identity,
    pub form: Form,
    pub scope_start: u64,
    pub scope_end: u64,
    pub from: usize,
    pub to: usize,
}

// The same in plain values, as C has it: the refusal's number, 0 where the packet is accepted, and the start and end that it carries; what the
// packet says; where its requests stand, and where a reader of them starts.
#[derive(Clone, Copy)]
pub struct Parsed {
    pub refusal: u64,
    pub start: u64,
    pub end: u64,
    pub identity: Identity,
    pub form: Form,
    pub scope_start: u64,
    pub scope_end: u64,
    pub from: usize,
    pub to: usize,
    pub next: usize,
}

// What a step of a reader finds: a request, its start and end, or none at the end; and the place after it.
#[derive(Clone, Copy)]
pub struct Found {
    pub step: Option<(u64, u64)>,
    pub at: usize,
}

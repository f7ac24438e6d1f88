// The NAK sequence: what a call answers. The call is in the crate nak_sequence.
#![tactic(auto)]

use nak::{Form, Identity};

// What a call is asked: the PDUs' identity and form, the most octets that one may have, the entry to begin with, and the most PDUs.
#[derive(Clone, Copy)]
pub struct Order {
    pub identity: Identity,
    pub form: Form,
    pub largest: usize,
    pub cursor: usize,
    pub budget: usize,
}

// What a sequence has written: PDUs, octets, and the new cursor.
#[derive(Clone, Copy)]
pub struct Sent {
    pub pdus: usize,
    pub octets: usize,
    pub cursor: usize,
}

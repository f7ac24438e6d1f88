// A pool of transfers for C: its records in numbers, a fresh one, and the calls on it by value.
#![tactic(auto)]

use answers::PusmarkeAnswer;
use c_values::PusmarkeReception;

pub mod inner; // inner.rt: the pool that C's numbers stand for
pub mod transfers; // transfers.rt: a pool without transfers, and one transfer more
pub mod whole; // whole.rt: the three events of a transfer

// A pool: how many transfers are in use, and of each its record, its floor and its limit, both in ranges.
#[repr(C)]
#[derive(Clone, Copy)]
pub struct PusmarkePool {
    pub used: usize,
    pub records: [PusmarkeReception; 8],
    pub floors: [usize; 8],
    pub limits: [usize; 8],
}

// What an event leaves: the answer, and C's pool.
#[derive(Clone, Copy)]
pub struct PoolOut {
    pub answer: PusmarkeAnswer,
    pub pool: PusmarkePool,
}

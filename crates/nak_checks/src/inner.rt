// Inner: not part of the public interface. Some of these have a `requires`, which their callers show.
pub mod identity; // identity.rt: the check of an identity
pub mod lengths; // lengths.rt: how long a PDU and its parts are
pub mod requests; // requests.rt: the checks of a list of requests, and of its numbers

pub use identity::bad_identity;

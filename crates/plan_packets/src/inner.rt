// Inner: not part of the public interface. Some of these have a `requires`, which their callers show.
pub mod packets; // packets.rt: the tests of one PDU
pub mod requests; // requests.rt: the tests of its requests

// Inner: not part of the public interface. Some of these have a `requires`, which their callers show.
pub mod firsts; // firsts.rt: tests 1, 2, 3 and 5
pub mod metadata; // metadata.rt: test 6
pub mod pdus; // pdus.rt: the PDUs of a plan, one after the other
pub mod union; // union.rt: test 4, and whether the union is what is missing

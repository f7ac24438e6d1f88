// Inner: the console's own. Each function is proved safe and ending, and states what its callers need for that.
pub mod print; // print.rt: standard output behind a buffer
pub mod words; // words.rt: the words of a line

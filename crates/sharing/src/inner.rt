// Inner: the checks that every call of a pool begins with, the numbers that they read, and what a call has of its transfer.
pub mod checks;
pub mod own;
pub mod settings;

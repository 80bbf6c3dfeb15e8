// Reads and writes what the bench's texts are made of: fields, words, decimals, signed numbers and hex. A reader tells whether a field has its form.
// A writer writes a text into a lent buffer from a place on, and answers the place past the text. If the text has no room there, the writer writes
// nothing and answers the place that it was given. Buffer and place stand by themselves: if a struct held both, each writer would also have to
// promise that the struct still holds the same buffer. No writer is a `Display`, since each promises every byte of the buffer, also those that it
// leaves.
#![tactic(auto)]

pub mod decimals;
pub mod fields;
pub mod hex;
pub mod signed;
pub mod words;
pub mod writing;

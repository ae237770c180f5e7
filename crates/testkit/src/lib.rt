// What the programs that are tests share: writing to standard output, reading the text files that
// have their cases, and the bytes of descriptor D. What is written, and what a file has, no
// contract can say; every other result is stated.
#![tactic(auto)]

mod printing;
mod sample;
mod text;

pub use printing::{print, print_bytes, print_hex, print_number};
pub use sample::descriptor;
pub use text::{Lines, after, bytes_of, first_line, next_line, read};

//! Files of cases, for the programs that run them: what a program is, how a file is read, and what is printed.
//!
//! A file begins with a line `subject NAME`, which says what its cases ask. Its first case that doesn't pass is printed
//! whole, with what was wanted and what came, and the status is 1; else a line tells how many passed. With the words
//! `answer SUBJECT FILE` a program prints what the subject answers to the bytes of a file, to be timed.
#![tactic(auto)]

mod comparing;
mod notation;
mod programs;
mod reading;
mod reports;
mod subjects;

pub use programs::run;
pub use reading::{Lines, Words, hexadecimal, split_before, split_line};
pub use reports::{Trouble, faulty, put, put_line, put_number, put_numbers};
pub use subjects::{Subject, Whole};

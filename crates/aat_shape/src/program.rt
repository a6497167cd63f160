//! The program over any words and any writer.
ghost use Rattle.std.specs.Prelude.{◌≤◌};

use crate::print::print_chosen;
use crate::stop::Stop;
use std::alloc::Global;
use std::io::Write;

/// Prints the rows that the words choose, and answers the program's status.
///
/// No word chooses all rows, in their order. One word that is a row's number in decimal chooses that
/// row. Anything else prints `unknown row`, with status 2. A refused call that is not what its row
/// shows prints `error` with its number, 3 for want of memory in making a row's values, with status 1.
/// A failed write ends with status 1, whatever it would have been. Else the status is 0.
pub fn run<W: Write>(alloc: Global, words: &[String], out: &mut W) -> u8
    ensures { result ≤ 2 }
{
    match print_chosen(alloc, words, out) {
        Ok(true) => 0,
        Ok(false) => match writeln!(out, "unknown row") {
            Ok(()) => 2,
            Err(_) => 1,
        },
        Err(Stop::Refused(number)) => {
            let _ = writeln!(out, "error {number}");
            1
        }
        Err(Stop::Unwritten) => 1,
    }
}

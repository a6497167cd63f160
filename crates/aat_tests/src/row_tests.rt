//! The printed worked rows over a writer of a caller, which refuses a write.

use aat_shape::run;
use std::alloc::Global;
use std::io::{self, Write};
use std::process::Abort;
use std::test::Fail;

/// A writer that keeps what it is given but for one write, which it refuses.
#[derive(Drop)]
struct Refusing {
    text: Vec<u8>,
    /// How many bytes stood there at each write.
    lengths: Vec<usize>,
    /// The number of the refused write, from 0.
    refused: usize,
}

impl Write for Refusing {
    fn write(&mut self, bytes: &[u8]) -> io::Result<usize> {
        let number = self.lengths.len();
        self.lengths.push(self.text.len())?;
        if number == self.refused {
            return Err(io::Error::from(io::ErrorKind::BrokenPipe));
        }
        self.text.extend_from_slice(bytes)?;
        Ok(bytes.len())
    }

    fn flush(&mut self) -> io::Result<()> {
        Ok(())
    }
}

/// Runs the program over words, with one write refused, and answers its status and what was written.
fn printed(alloc: Global, words: &[&str], refused: usize) -> Result<(u8, Refusing), Fail> {
    let mut owned = Vec::new(alloc);
    for word in words {
        owned.push(String::from_str(alloc, word)?)?;
    }
    let mut out = Refusing {
        text: Vec::new(alloc),
        lengths: Vec::new(alloc),
        refused,
    };
    let status = run(alloc, &owned, &mut out);
    Ok((status, out))
}

/// Asserts that each so many-th write over words is refused with the status 1, leaves the text before it, and is followed
/// by no other.
fn assert_refused(rt: &impl Abort, alloc: Global, words: &[&str], step: usize) -> Result<(), Fail> {
    let (_, whole) = printed(alloc, words, usize::MAX)?;
    for (refused, length) in whole.lengths.iter().enumerate() {
        if refused.checked_rem(step) == Some(0) {
            let (status, out) = printed(alloc, words, refused)?;
            let text = out.text.as_slice();
            let is_left = whole.text.as_slice().get(..*length) == Some(text);
            let is_last = out.lengths.len() == refused.saturating_add(1);
            assert!(rt; status == 1 && is_left && is_last, "write {refused}");
        }
    }
    assert!(rt; !whole.lengths.as_slice().is_empty());
    Ok(())
}

/// Each write of rows of each form, and of unknown words; and one of forty of all rows.
#[test]
fn a_refused_write_ends_with_1(rt: HostRuntime) -> Result<(), Fail> {
    for row in ["1", "3", "7", "19", "21", "38", "0"] {
        assert_refused(&rt, rt.alloc(), &[row], 1)?;
    }
    assert_refused(&rt, rt.alloc(), &[], 40)
}

//! The table as text.
use crate::ranges::InspectedRange;
use std::fmt;

/// Ranges as a table that a person reads: a header, and a line each with the place of the chain, the first and the last
/// cluster, where `end` is the last one there can be, the flags as hexadecimal digits, and the places of the subtables
/// that are on.
#[derive(Drop)]
pub struct Table<'a>(pub &'a [InspectedRange]);

impl<'a> fmt::Display for Table<'a> {
    fn fmt<W: fmt::Write>(&self, f: &mut fmt::Formatter<W>) -> fmt::Result {
        write!(f, "chain       first        last       flags  on")?;
        for range in self.0 {
            write!(f, "\n{range}")?;
        }
        Ok(())
    }
}

impl fmt::Display for InspectedRange {
    fn fmt<W: fmt::Write>(&self, f: &mut fmt::Formatter<W>) -> fmt::Result {
        let chain = self.chain;
        let first = self.first;
        let last = self.last;
        let flags = self.flags;
        if last == u32::MAX {
            write!(f, "{chain:>5}  {first:>10}         end  0x{flags:08x}")?;
        } else {
            write!(f, "{chain:>5}  {first:>10}  {last:>10}  0x{flags:08x}")?;
        }
        for (place, on) in self.on.iter().enumerate() {
            if *on {
                write!(f, "  {place}")?;
            }
        }
        Ok(())
    }
}

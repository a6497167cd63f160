//! Tests of what no line of a program can say. What typed tables can hold and bytes cannot, and what needs a type of a
//! caller: numbers and places at their ends, long lines, a context, a filter, ranges and a writer of a caller. The
//! public paths of the layer. And refused memory: each call that asks for memory is made while ever more of a heap is
//! left, so that its first, its second and each later request is refused in turn, until one call meets no refusal.
#![tactic(auto)]

#[cfg(test)]
mod buffer_tests;
#[cfg(test)]
mod buffers;
#[cfg(test)]
mod calls;
#[cfg(test)]
mod cases;
#[cfg(test)]
mod context_tests;
mod counting;
#[cfg(test)]
mod error_tests;
#[cfg(test)]
mod fonts;
#[cfg(test)]
mod hoard;
#[cfg(test)]
mod inspector_tests;
#[cfg(test)]
mod kerning;
#[cfg(test)]
mod kerning_tests;
#[cfg(test)]
mod lines;
#[cfg(test)]
mod machines;
#[cfg(test)]
mod numbers;
pub mod paths;
#[cfg(test)]
mod readers;
#[cfg(test)]
mod refusal_tests;
#[cfg(test)]
mod requests;
#[cfg(test)]
mod row_tests;
#[cfg(test)]
mod shaping;
#[cfg(test)]
mod substitution;
#[cfg(test)]
mod substitution_tests;
#[cfg(test)]
mod tables;
#[cfg(test)]
mod texts;
#[cfg(test)]
mod typesetting;

pub use counting::CountingCtx;

//! The tags of the tables that outlines are read from.

pub use aat_bytes::tags::{GLYF, LOCA};

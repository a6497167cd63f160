//! Rows that rise.

/// The place of the first row that is not below another one, of rows that rise.
pub(crate) fn place_of<T: Ord>(rows: &[T], row: &T) -> usize {
    match rows.binary_search(row) {
        Ok(place) => place,
        Err(place) => place,
    }
}

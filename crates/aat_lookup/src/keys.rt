//! Rows that rise by a key, as those of the tables of a font and of the table of features: how they are tested and
//! searched.
ghost use Rattle.std.specs.Prelude.{◌≡◌, option_copied};
ghost use Rattle.aat_lookup.specs.Keys.{IsRising, at_key, first_fall};

/// A row, with the number by which rows rise.
pub trait Keyed {
    ghost use Rattle.std.specs.Prelude.{◌≡◌, ℕ};

    ghost key_of: { Self → ℕ };

    /// The number by which rows rise.
    fn key(&self) -> u32
        ensures { result ≡ key_of self.now };
}

impl<T> Keyed for (u16, T) {
    ghost use Rattle.aat_lookup.specs.Keys.{first};

    ghost key_of = { first };

    fn key(&self) -> u32 {
        self.0 as u32
    }
}

impl<T> Keyed for (u16, u16, T) {
    ghost use Rattle.aat_lookup.specs.Keys.{first_two};

    ghost key_of = { first_two };

    fn key(&self) -> u32 {
        self.0 as u32 * 65536 + self.1 as u32
    }
}

/// The place of the first row that is not above the one before it.
pub fn first_fall<R: Keyed>(rows: &[R]) -> Option<usize>
    ensures { result ≡ first_fall R.key_of rows.now }
{
    for i in 1..rows.len() {
        if rows[i].key() <= rows[i - 1].key() {
            return Some(i);
        }
    }
    None
}

/// A copy of the row that has the key, if there is one, found by bisection.
pub fn row_at<R: Keyed + Copy>(rows: &[R], key: u32) -> Option<R>
    requires { IsRising R.key_of rows.now }
    ensures { result ≡ at_key R.key_of rows.now key }
{
    row_in(rows, key).copied()
}

/// The row that has the key, where it stands, if there is one, found by bisection.
pub fn row_in<R: Keyed>(rows: &[R], key: u32) -> Option<&R>
    requires { IsRising R.key_of rows.now }
    ensures { option_copied result ≡ at_key R.key_of rows.now key }
{
    match rows.binary_search_by_key(&key, |row| row.key()) {
        Ok(at) => Some(&rows[at]),
        Err(_) => None,
    }
}

/// The row that has the key, where it stands, if there is one, for rows that often lie close. Since keys rise by at
/// least 1 a row, it stands no further from the first row than its key is above that row's: it is looked for there, and
/// else found by bisection.
pub fn row_close<R: Keyed>(rows: &[R], key: u32) -> Option<&R>
    requires { IsRising R.key_of rows.now }
    ensures { option_copied result ≡ at_key R.key_of rows.now key }
{
    if rows.is_empty() {
        return None;
    }
    let place = key.saturating_sub(rows[0].key()) as usize;
    if place < rows.len() {
        let row = &rows[place];
        if row.key() == key {
            return Some(row);
        }
    }
    row_in(rows, key)
}

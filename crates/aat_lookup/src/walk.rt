//! One walk over rows that rise, which is asked for keys that rise.
ghost use Rattle.std.specs.Prelude.{◌≡◌, ◌≤◌, length};
ghost use Rattle.aat_lookup.specs.Keys.{at_key, IsRising};
ghost use Rattle.aat_lookup.specs.inside.Walks.{AreBelow, AreNotBelow};

use crate::keys::Keyed;

/// The place of the first row from a place on whose key is not below one, or the number of rows. The rows before the
/// place are below the key.
pub fn walk_to<R: Keyed>(rows: &[R], from: usize, key: u32) -> usize
    requires rising { IsRising R.key_of rows.now }
    requires passed { AreBelow R.key_of rows.now from key }
    ensures within { result ≤ length rows.now }
    ensures below { AreBelow R.key_of rows.now result key }
    ensures above { AreNotBelow R.key_of rows.now result key }
{
    for place in from..rows.len() {
        if rows[place].key() >= key {
            return place;
        }
    }
    rows.len()
}

/// A copy of the row that has the key, if there is one. It stands at the place to which a walk to the key has come.
pub fn row_here<R: Keyed + Copy>(rows: &[R], place: usize, key: u32) -> Option<R>
    requires rising { IsRising R.key_of rows.now }
    requires below { AreBelow R.key_of rows.now place key }
    requires above { AreNotBelow R.key_of rows.now place key }
    ensures { result ≡ at_key R.key_of rows.now key }
{
    if place >= rows.len() {
        return None;
    }
    let row = rows[place];
    if row.key() != key {
        return None;
    }
    Some(row)
}

//! Values of a description: objects, lists, numbers and words.

use crate::known::Known;
use anyhow::{Context, Result, bail};
use serde_json::{Map, Value};
use std::num::saturating_f64_to_i32;

/// What an object has, by its keys.
pub(crate) type Members = Map<String, Value>;

/// What an object has.
pub(crate) fn object(value: &Value) -> Result<&Members> {
    match value.as_object() {
        Some(members) => Ok(members),
        None => bail!("an object is wanted"),
    }
}

/// What an object has that may have these keys alone, which spaces part.
pub(crate) fn members<'v>(value: &'v Value, keys: &str) -> Result<&'v Members> {
    let members = object(value)?;
    for key in members.keys() {
        if !keys.split(' ').any(|known| known == key.as_str()) {
            bail!("{key}: there is no such key here");
        }
    }
    Ok(members)
}

/// The items of a list.
pub(crate) fn items(value: &Value) -> Result<&[Value]> {
    match value.as_array() {
        Some(items) => Ok(items.as_slice()),
        None => bail!("a list is wanted"),
    }
}

/// What a value of a description tells.
pub(crate) trait Told: Drop {
    /// What the value tells. An error says what is wrong with it, behind the way to it: keys, and places from 0 on.
    fn of(known: &mut Known, value: &Value) -> Result<Self>;
}

impl Told for u16 {
    /// A number without a sign, or that of a glyph.
    fn of(known: &mut Known, value: &Value) -> Result<u16> {
        if let Some(text) = value.as_str() {
            return known.glyph(text);
        }
        match value.as_i64().map(u16::try_from) {
            Some(Ok(number)) => Ok(number),
            _ => bail!("a number from 0 to 65535, or a glyph, is wanted"),
        }
    }
}

impl Told for i16 {
    /// A number with a sign.
    fn of(_known: &mut Known, value: &Value) -> Result<i16> {
        match value.as_i64().map(i16::try_from) {
            Some(Ok(number)) => Ok(number),
            _ => bail!("a number from -32768 to 32767 is wanted"),
        }
    }
}

impl Told for u32 {
    /// A number without a sign.
    fn of(_known: &mut Known, value: &Value) -> Result<u32> {
        match value.as_i64().map(u32::try_from) {
            Some(Ok(number)) => Ok(number),
            _ => bail!("a number from 0 to 4294967295 is wanted"),
        }
    }
}

impl Told for i32 {
    /// A 16.16 fixed number.
    fn of(_known: &mut Known, value: &Value) -> Result<i32> {
        match value.as_f64() {
            Some(number) => Ok(saturating_f64_to_i32(number * 65536.0)),
            None => bail!("a number is wanted"),
        }
    }
}

impl Told for bool {
    fn of(_known: &mut Known, value: &Value) -> Result<bool> {
        match value.as_bool() {
            Some(holds) => Ok(holds),
            None => bail!("true or false is wanted"),
        }
    }
}

impl Told for String {
    fn of(known: &mut Known, value: &Value) -> Result<String> {
        match value.as_str() {
            Some(text) => Ok(String::from_str(known.alloc, text)?),
            None => bail!("a text is wanted"),
        }
    }
}

impl<T: Told> Told for Vec<T> {
    /// What the items of a list tell.
    fn of(known: &mut Known, value: &Value) -> Result<Vec<T>> {
        let mut list = Vec::new(known.alloc);
        for (place, item) in items(value)?.iter().enumerate() {
            list.push(T::of(known, item).context(format_args!("[{place}]"))?)?;
        }
        Ok(list)
    }
}

impl<S: Told, T: Told> Told for (S, T) {
    /// What the two items of a list tell.
    fn of(known: &mut Known, value: &Value) -> Result<(S, T)> {
        match items(value)? {
            [first, second] => Ok((S::of(known, first)?, T::of(known, second)?)),
            _ => bail!("a list of two is wanted"),
        }
    }
}

/// What the value at a key tells, if it is there.
pub(crate) fn maybe<T: Told>(known: &mut Known, members: &Members, key: &str) -> Result<Option<T>> {
    match members.get(key) {
        Some(value) => Ok(Some(T::of(known, value).context(format_args!("{key}"))?)),
        None => Ok(None),
    }
}

/// What the value at a key tells, or what stands for it where the key is absent.
pub(crate) fn at<T: Told>(
    known: &mut Known,
    members: &Members,
    key: &str,
    missing: T,
) -> Result<T> {
    match maybe(known, members, key)? {
        Some(told) => Ok(told),
        None => Ok(missing),
    }
}

/// What the value at a key tells, which has to be there.
pub(crate) fn need<T: Told>(known: &mut Known, members: &Members, key: &str) -> Result<T> {
    match maybe(known, members, key)? {
        Some(told) => Ok(told),
        None => bail!("{key} is missing"),
    }
}

/// The word at a key, which has to be there.
pub(crate) fn word<'v>(members: &'v Members, key: &str) -> Result<&'v str> {
    match members.get(key).map(|value| value.as_str()) {
        Some(Some(word)) => Ok(word),
        Some(None) => bail!("{key}: a text is wanted"),
        None => bail!("{key} is missing"),
    }
}

/// What the list at a key tells, which is empty where the key is absent.
pub(crate) fn list<T: Told>(known: &mut Known, members: &Members, key: &str) -> Result<Vec<T>> {
    let nothing = Vec::new(known.alloc);
    at(known, members, key, nothing)
}

/// A word that a description may have, and its bits.
pub(crate) type Word = (&'static str, u16);

/// The bits of a word, or the number that it is.
fn bits_of(words: &[Word], word: &str) -> Result<u16> {
    match words.iter().find(|known| known.0 == word) {
        Some(known) => Ok(known.1),
        None => word
            .parse()
            .context(format_args!("{word}: there is no such word here")),
    }
}

/// The bits of the words at a key, which spaces part, or others where the key is absent.
pub(crate) fn bits(members: &Members, key: &str, words: &[Word], missing: u16) -> Result<u16> {
    let Some(value) = members.get(key) else {
        return Ok(missing);
    };
    let mut bits = 0;
    for word in value.as_str().unwrap_or("?").split_ascii_whitespace() {
        bits |= bits_of(words, word).context(format_args!("{key}"))?;
    }
    Ok(bits)
}

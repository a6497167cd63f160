//! The words of a request.

use anyhow::{Context, Result, bail, ensure};
use std::alloc::Global;
use std::str::Chars;

/// What is told of a quote that is open at the end of the line.
const OPEN_QUOTE: &str = "a quote is not closed";

/// The character of a number in braces, as in `{301}`, with which the characters begin.
fn numbered(characters: &mut Chars<'_>) -> Result<char> {
    let text = characters.as_str().strip_prefix('{');
    let (digits, after) = text
        .and_then(|text| text.split_once('}'))
        .context("\\u wants a number in braces")?;
    ensure!(
        digits.bytes().all(|digit| digit.is_ascii_hexdigit()),
        "\\u{{{digits}}} is no hexadecimal number"
    );
    let number = u32::from_str_radix(digits, 16).context("\\u wants a number of a character")?;
    *characters = after.chars();
    char::from_u32(number).context("\\u wants a number of a character")
}

/// The character that stands behind a backslash.
fn escaped(characters: &mut Chars<'_>) -> Result<char> {
    match characters.next() {
        Some('"') => Ok('"'),
        Some('\\') => Ok('\\'),
        Some('u') => numbered(characters),
        Some(character) => bail!("\\{character} is no character of a quote"),
        None => bail!("{OPEN_QUOTE}"),
    }
}

/// The word of a quote, whose opening mark is taken, and the text behind it.
fn quoted_word(alloc: Global, text: &str) -> Result<(String, &str)> {
    let mut word = String::new(alloc);
    let mut characters = text.chars();
    for _character in 0..text.len() {
        match characters.next() {
            Some('"') => return Ok((word, characters.as_str())),
            Some('\\') => word.push(escaped(&mut characters)?)?,
            Some(character) => word.push(character)?,
            None => break,
        }
    }
    bail!("{OPEN_QUOTE}")
}

/// The word that is in no quotes, and the text behind it.
fn bare_word(alloc: Global, text: &str) -> Result<(String, &str)> {
    let (word, after) = match text.split_once(' ') {
        Some((word, after)) => (word, after),
        None => (text, ""),
    };
    ensure!(
        !word.contains('"'),
        "a quote stands in the middle of {word}"
    );
    Ok((String::from_str(alloc, word)?, after))
}

/// The first word of a text that begins with one, and the text behind it.
fn first_word(alloc: Global, text: &str) -> Result<(String, &str)> {
    let Some(quoted) = text.strip_prefix('"') else {
        return bare_word(alloc, text);
    };
    let (word, after) = quoted_word(alloc, quoted)?;
    ensure!(
        after.is_empty() || after.starts_with(' '),
        "no space stands behind a quote"
    );
    Ok((word, after))
}

/// The words of a request, behind the name of the program. Spaces part them. A word may be in double quotes, and then
/// `\"`, `\\` and `\u{HEX}` are a quote, a backslash and the character of a number.
///
/// An error tells what is wrong with a quote, or that memory is wanting.
pub fn words_of(alloc: Global, line: &str) -> Result<Vec<String>> {
    let mut words = Vec::new(alloc);
    words.push(String::from_str(alloc, "aat")?)?;
    let mut rest = line.trim_start_matches(' ');
    for _word in 0..line.len() {
        if rest.is_empty() {
            break;
        }
        let (word, after) = first_word(alloc, rest)?;
        words.push(word)?;
        rest = after.trim_start_matches(' ');
    }
    Ok(words)
}

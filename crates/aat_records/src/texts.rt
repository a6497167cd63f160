//! What numbers say, in English.
ghost use Rattle.std.specs.Prelude.{◌≡◌};
ghost use Rattle.aat_records.specs.Texts.{text_of_fault, text_of_status};

/// What a number of a status says, in English. There is nothing for other numbers.
pub fn status_text(number: u32) -> &'static str
    ensures { result.now ≡ text_of_status number }
{
    match number {
        0 => "no error",
        1 => "the handle holds no font",
        2 => "out of memory",
        3 => "the directory of the font file has a fault",
        4 => "the text is not of its encoding",
        5 => "the text has more than 4294967295 bytes",
        6 => "a feature aalt has a value above 65535",
        7 => "the line of glyphs is too long",
        8 => "the text is no feature",
        9 => "a number of the options stands for nothing",
        10 => "what is asked for is not there",
        _ => "",
    }
}

/// What a number of a kind of fault says, in English. There is nothing for other numbers.
pub fn fault_text(number: u32) -> &'static str
    ensures { result.now ≡ text_of_fault number }
{
    match number {
        1 => "reaches past the end",
        2 => "has an unknown version or format",
        3 => "has a length below that of its header",
        4 => "is missing",
        5 => "has a key that is not above the one before it",
        _ => "",
    }
}

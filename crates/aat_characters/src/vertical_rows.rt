//! The characters that have a vertical form.

/// The characters that HarfBuzz exchanges for vertical ones in columns, with these, rising.
pub(crate) static VERTICAL: [(u16, char); 33] = [
    // en dash, em dash, two dot leader, ellipsis
    (0x2013, '\u{FE32}'),
    (0x2014, '\u{FE31}'),
    (0x2025, '\u{FE30}'),
    (0x2026, '\u{FE19}'),
    // ideographic comma and full stop
    (0x3001, '\u{FE11}'),
    (0x3002, '\u{FE12}'),
    // brackets: angle, double angle, corner, white corner, black lenticular, tortoise shell, white lenticular
    (0x3008, '\u{FE3F}'),
    (0x3009, '\u{FE40}'),
    (0x300A, '\u{FE3D}'),
    (0x300B, '\u{FE3E}'),
    (0x300C, '\u{FE41}'),
    (0x300D, '\u{FE42}'),
    (0x300E, '\u{FE43}'),
    (0x300F, '\u{FE44}'),
    (0x3010, '\u{FE3B}'),
    (0x3011, '\u{FE3C}'),
    (0x3014, '\u{FE39}'),
    (0x3015, '\u{FE3A}'),
    (0x3016, '\u{FE17}'),
    (0x3017, '\u{FE18}'),
    // wavy low line
    (0xFE4F, '\u{FE34}'),
    // fullwidth: exclamation mark, parentheses, comma, colon, semicolon, question mark
    (0xFF01, '\u{FE15}'),
    (0xFF08, '\u{FE35}'),
    (0xFF09, '\u{FE36}'),
    (0xFF0C, '\u{FE10}'),
    (0xFF1A, '\u{FE13}'),
    (0xFF1B, '\u{FE14}'),
    (0xFF1F, '\u{FE16}'),
    // fullwidth: square brackets, low line, curly brackets
    (0xFF3B, '\u{FE47}'),
    (0xFF3D, '\u{FE48}'),
    (0xFF3F, '\u{FE33}'),
    (0xFF5B, '\u{FE37}'),
    (0xFF5D, '\u{FE38}'),
];

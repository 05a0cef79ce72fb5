ghost use Rattle.std.specs.Prelude.{◌≡◌, ◌≤◌, true};
ghost use Rattle.zi_xml.specs.Chars.{is_white as white, is_first as first, is_name as in_name, is_char as carried_char, is_plain as plain, is_quote as quote, is_digit as digit, is_hex as hex, is_encoding_first as encoding_first, is_encoding as encoding, digit_value as value_of_digit, hex_value as value_of_hex, entity as meaning};
ghost use Rattle.zi_xml.specs.Meaning.{carried as carries};
ghost use Rattle.zi_xml.specs.Machine.{grown as grows};

#[tactic(auto, unfolding(zi_xml::specs::Chars::is_white))]
pub fn is_white(c: char) -> bool
    ensures { result ≡ white c }
{
    c == ' ' || c == '\t' || c == '\n' || c == '\r'
}

/// Whether XML can carry a character (XML 1.0, 2.2).
#[tactic(auto, unfolding(zi_xml::specs::Chars::is_char))]
pub fn is_char(c: char) -> bool
    ensures { result ≡ carried_char c }
{
    ' ' <= c && c <= '\u{D7FF}'
        || c == '\t'
        || c == '\n'
        || c == '\r'
        || '\u{E000}' <= c && c <= '\u{FFFD}'
        || '\u{10000}' <= c && c <= '\u{10FFFF}'
}

#[tactic(auto, unfolding(zi_xml::specs::Chars::is_first))]
pub fn is_first(c: char) -> bool
    ensures { result ≡ first c }
{
    'A' <= c && c <= 'Z'
        || 'a' <= c && c <= 'z'
        || c == '_'
        || c == ':'
        || '\u{80}' <= c && is_char(c)
}

#[tactic(auto, unfolding(zi_xml::specs::Chars::is_digit))]
pub fn is_digit(c: char) -> bool
    ensures { result ≡ digit c }
{
    '0' <= c && c <= '9'
}

#[tactic(auto, unfolding(zi_xml::specs::Chars::is_name))]
pub fn is_name(c: char) -> bool
    ensures { result ≡ in_name c }
{
    is_first(c) || is_digit(c) || c == '-' || c == '.'
}

#[tactic(auto, unfolding(zi_xml::specs::Chars::is_plain))]
pub fn is_plain(c: char) -> bool
    ensures { result ≡ plain c }
{
    is_char(c) && !(c == '<') && !(c == '&')
}

#[tactic(auto, unfolding(zi_xml::specs::Chars::is_quote))]
pub fn is_quote(c: char) -> bool
    ensures { result ≡ quote c }
{
    c == '"' || c == '\''
}

#[tactic(auto, unfolding(zi_xml::specs::Chars::is_encoding_first))]
pub fn is_encoding_first(c: char) -> bool
    ensures { result ≡ encoding_first c }
{
    'A' <= c && c <= 'Z' || 'a' <= c && c <= 'z'
}

#[tactic(auto, unfolding(zi_xml::specs::Chars::is_encoding))]
pub fn is_encoding(c: char) -> bool
    ensures { result ≡ encoding c }
{
    'A' <= c && c <= 'Z' || 'a' <= c && c <= 'z' || is_digit(c) || c == '.' || c == '_' || c == '-'
}

#[tactic(auto, unfolding(zi_xml::specs::Chars::is_hex))]
pub fn is_hex(c: char) -> bool
    ensures { result ≡ hex c }
{
    is_digit(c) || 'A' <= c && c <= 'F' || 'a' <= c && c <= 'f'
}

/// The value of a decimal digit.
#[tactic(auto, unfolding(zi_xml::specs::Chars::is_digit, zi_xml::specs::Chars::digit_value))]
pub fn digit_value(c: char) -> u32
    requires { digit c ≡ true }
    ensures value { result ≡ value_of_digit c }
    ensures small { result ≤ 9 }
{
    c as u32 - 48
}

/// The value of a hexadecimal digit.
#[tactic(auto, unfolding(zi_xml::specs::Chars::is_hex, zi_xml::specs::Chars::is_digit, zi_xml::specs::Chars::hex_value))]
pub fn hex_value(c: char) -> u32
    requires { hex c ≡ true }
    ensures value { result ≡ value_of_hex c }
    ensures small { result ≤ 15 }
{
    if is_digit(c) {
        c as u32 - 48
    } else if 'A' <= c && c <= 'F' {
        c as u32 - 55
    } else {
        c as u32 - 87
    }
}

/// One digit more, held at 0x110000.
pub fn grown(base: u32, n: u32, d: u32) -> u32
    ensures { result ≡ grows base n d }
{
    n.saturating_mul(base).saturating_add(d).min(0x110000)
}

/// The character of this number, if XML can carry it.
#[tactic(auto, unfolding(zi_xml::specs::Meaning::carried, zi_xml::specs::Chars::is_char))]
pub fn carried(n: u32) -> Option<char>
    ensures { result ≡ carries n }
{
    match char::from_u32(n) {
        Some(c) => { if is_char(c) { Some(c) } else { None } }
        None => None,
    }
}

/// What a predefined entity stands for.
#[tactic(auto, unfolding(zi_xml::specs::Chars::entity))]
pub fn entity(name: &str) -> Option<char>
    ensures { result ≡ meaning name.now }
{
    if name == "amp" {
        Some('&')
    } else if name == "lt" {
        Some('<')
    } else if name == "gt" {
        Some('>')
    } else if name == "quot" {
        Some('"')
    } else if name == "apos" {
        Some('\'')
    } else {
        None
    }
}

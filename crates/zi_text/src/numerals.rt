//! Numbers that are written as decimal digits.
ghost use Rattle.std.specs.Prelude.{◌≡◌, ◌^◌, ◌&&◌, nat_lt, if◌then◌else◌, Some, None};
ghost use Rattle.std.specs.List.{list_all};
ghost use Rattle.std.specs.Char.{is_ascii_digit};
ghost use Rattle.zi_text.specs.Numeral.{numeral, number_from};

// The number that decimal digits stand for, where it is below 2^64.
fn number_on(text: &[u8]) -> Option<u64>
    ensures { result ≡ (if list_all is_ascii_digit text.now && nat_lt (number_from 0 text.now) (2 ^ 64)
        then Some (number_from 0 text.now) else None) }
{
    let mut number = 0u64;
    for digit in text {
        if !digit.is_ascii_digit() {
            return None;
        }
        number = number
            .checked_mul(10)?
            .checked_add(u64::from(*digit - b'0'))?;
    }
    Some(number)
}

/// The number of one or more decimal digits, where it is below 2^64.
pub fn numeral(text: &str) -> Option<u64>
    ensures { result ≡ numeral text.now }
{
    if text.is_empty() {
        return None;
    }
    number_on(text.as_bytes())
}

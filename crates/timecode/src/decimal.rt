//! Decimal numbers in texts. It is here, below all crates that read one, so that there is one definition of them.
ghost use Rattle.std.specs.Prelude.{◌≡◌, ◌≤◌, ◌<◌, ◌^◌, IfSome};
ghost use Rattle.std.specs.List.{list_all};
ghost use Rattle.std.specs.Char.{is_ascii_digit};
ghost use Rattle.timecode.specs.Decimal.{decimal_number, whole_number};

/// Whether each byte is a digit.
pub fn is_digits(text: &[u8]) -> bool
    ensures { result ≡ list_all is_ascii_digit text.now }
{
    text.iter().all(|b| b.is_ascii_digit())
}

/// The number that 1 to `most` digits write, leading zeros included, or `None` for any other text.
pub fn decimal_number(text: &[u8], most: usize) -> Option<u64>
    requires { most ≤ 10 }
    ensures value { result ≡ decimal_number most text.now }
    ensures below { IfSome result (λ n. n < 10 ^ most) }
{
    if text.is_empty() || text.len() > most || !is_digits(text) {
        return None;
    }
    let mut n = 0;
    for b in text {
        n = n * 10 + u64::from(*b - b'0');
    }
    Some(n)
}

/// The number that 1 to `most` digits write, the first of them not 0, or `None` for any other text.
pub fn whole_number(text: &[u8], most: usize) -> Option<u64>
    requires { most ≤ 10 }
    ensures value { result ≡ whole_number most text.now }
    ensures below { IfSome result (λ n. n < 10 ^ most) }
{
    if !text.is_empty() && text[0] == b'0' {
        return None;
    }
    decimal_number(text, most)
}

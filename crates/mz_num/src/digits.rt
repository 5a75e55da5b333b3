//! Decimal digits as they stand in a text.
ghost use Rattle.std.specs.Prelude.{◌≡◌, ◌+◌, ◌*◌, ◌^◌, ◌<◌, ◌≤◌, length, if◌then◌else◌, IfSome};
ghost use Rattle.std.specs.Str.{all_ascii_digits};
ghost use Rattle.std.specs.Str.Parse.{digits_value_after};
ghost use Rattle.mz_num.specs.Digits.{digits_number};

/// The number that one to `most` decimal digits write; none for any other text. Leading zeros are digits too.
pub fn read_digits(most: usize, text: &[u8]) -> Option<u128>
    requires { most ≤ 38 }
    ensures number { result ≡ digits_number most text.now }
    ensures small { IfSome result (λ n. n < 10 ^ most) }
{
    if text.is_empty() || text.len() > most {
        return None;
    }
    more_digits(0, text)
}

/// Goes on with a number by more digits; none where another byte stands among them.
pub(crate) fn more_digits(before: u128, text: &[u8]) -> Option<u128>
    requires { (before + 1) * 10 ^ length text.now ≤ 10 ^ 38 }
    ensures number { result ≡
        (if all_ascii_digits text.now then Some (digits_value_after 10 before text.now) else None) }
    ensures small { IfSome result (λ n. n + 1 ≤ (before + 1) * 10 ^ length text.now) }
{
    let mut number = before;
    for byte in text {
        if !byte.is_ascii_digit() {
            return None;
        }
        number = number * 10 + u128::from(*byte - b'0');
    }
    Some(number)
}

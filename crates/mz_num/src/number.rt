//! A number as it is written: a sign, a mantissa and an exponent.
ghost use Rattle.std.specs.Prelude.{◌≡◌, ◌+◌, ◌<◌, ◌≤◌, ◌^◌, ◌++◌, length, drop, IfSome};
ghost use Rattle.std.specs.List.{before_first, after_first, position, position_or_len};
ghost use Rattle.mz_num.specs.Digits.{digits_number};
ghost use Rattle.mz_num.specs.NumberText.{has_minus, behind_sign, is_mark, is_point, exponent_of, number_in};

use crate::digits::{more_digits, read_digits};
use std::marker::Model;

/// A number as it is written. Its value is `mantissa * 10^raised / 10^lowered`, below 0 where it
/// is negative.
#[derive(Clone, Copy)]
pub(crate) struct Number {
    pub(crate) negative: bool,
    pub(crate) mantissa: u128,
    pub(crate) raised: u32,
    pub(crate) lowered: u32,
}

impl Model for Number {
    ghost use Rattle.mz_num.specs.NumberText.{WrittenNumber};

    ghost Value = { WrittenNumber };

    ghost view = { λ n.
        record { negative = n.negative; mantissa = n.mantissa; raised = n.raised; lowered = n.lowered } };

    ghost inverse = { λ n.
        record { negative = n.negative; mantissa = n.mantissa; raised = n.raised; lowered = n.lowered } };
}

/// A power of ten: by how many places it raises a number, and by how many it lowers it.
#[derive(Clone, Copy)]
pub(crate) struct Power {
    pub(crate) raised: u32,
    pub(crate) lowered: u32,
}

impl Model for Power {
    ghost use Rattle.mz_num.specs.NumberText.{PowerOfTen};

    ghost Value = { PowerOfTen };

    ghost view = { λ p. record { raised = p.raised; lowered = p.lowered } };

    ghost inverse = { λ p. record { raised = p.raised; lowered = p.lowered } };
}

/// The number that a text writes; none where the text is outside the grammar.
#[tactic(auto, unfolding(crate::specs::NumberText::number_in))]
pub(crate) fn read_number(text: &[u8]) -> Option<Number>
    ensures number { result ≡ number_in text.now }
    ensures mantissa { IfSome result (λ n. n.mantissa < 10 ^ 38) }
    ensures raised { IfSome result (λ n. n.raised < 10 ^ 4) }
    ensures lowered { IfSome result (λ n. n.lowered < 10 ^ 5) }
{
    let (negative, body) = split_sign(text);
    let (mantissa, exponent) = split_at_mark(body);
    let (whole, fraction) = split_at_point(mantissa);
    let mantissa = read_mantissa(whole, fraction)?;
    let power = read_exponent(exponent)?;
    let decimals = fraction.len() as u32;
    Some(Number {
        negative,
        mantissa,
        raised: power.raised,
        lowered: decimals + power.lowered,
    })
}

/// Whether a minus sign stands first, and what follows the sign.
pub(crate) fn split_sign(text: &[u8]) -> (bool, &[u8])
    ensures minus { result.0 ≡ has_minus text.now }
    ensures rest { result.1.now ≡ behind_sign text.now }
{
    match text {
        [b'-', rest @ ..] => (true, rest),
        [b'+', rest @ ..] => (false, rest),
        _ => (false, text),
    }
}

/// What stands before the mark of the exponent, and what from it on.
fn split_at_mark(text: &[u8]) -> (&[u8], &[u8])
    ensures before { result.0.now ≡ before_first is_mark text.now }
    ensures from { result.1.now ≡ drop (position_or_len is_mark text.now) text.now }
{
    match mark_place(text) {
        Some(place) => text.split_at(place),
        None => (text, &[]),
    }
}

/// The place of the mark of the exponent.
fn mark_place(text: &[u8]) -> Option<usize>
    ensures { result ≡ position is_mark text.now }
{
    text.iter().position(|byte| *byte == b'E' || *byte == b'e')
}

/// What stands before the point, and what behind it.
fn split_at_point(text: &[u8]) -> (&[u8], &[u8])
    ensures before { result.0.now ≡ before_first is_point text.now }
    ensures behind { result.1.now ≡ after_first is_point text.now }
{
    match point_place(text) {
        Some(place) => (&text[..place], &text[place + 1..]),
        None => (text, &[]),
    }
}

/// The place of the first point.
fn point_place(text: &[u8]) -> Option<usize>
    ensures { result ≡ position is_point text.now }
{
    text.iter().position(|byte| *byte == b'.')
}

/// The number of a mantissa's digits before and behind its point; none where they aren't 1 to 38 digits.
fn read_mantissa(whole: &[u8], fraction: &[u8]) -> Option<u128>
    ensures number { result ≡ digits_number 38 (whole.now ++ fraction.now) }
    ensures small { IfSome result (λ n. n < 10 ^ 38) }
    ensures short { IfSome result (λ n. length fraction.now ≤ 38) }
{
    let count = whole.len() + fraction.len();
    if count == 0 || count > 38 {
        return None;
    }
    more_digits(more_digits(0, whole)?, fraction)
}

/// The power of ten that a text from the mark of its exponent on writes.
fn read_exponent(text: &[u8]) -> Option<Power>
    ensures power { result ≡ exponent_of text.now }
    ensures raised { IfSome result (λ p. p.raised < 10 ^ 4) }
    ensures lowered { IfSome result (λ p. p.lowered < 10 ^ 4) }
{
    match text {
        [] => Some(Power {
            raised: 0,
            lowered: 0,
        }),
        [_, exponent @ ..] => {
            let (minus, digits) = split_sign(exponent);
            let places = read_digits(4, digits)? as u32;
            Some(if minus {
                Power {
                    raised: 0,
                    lowered: places,
                }
            } else {
                Power {
                    raised: places,
                    lowered: 0,
                }
            })
        }
    }
}

//! What the value of each kind of key reads as. A number is the value's first word; a text is all of it.
ghost use Rattle.std.specs.Prelude.{◌≡◌, MatchResult};
ghost use Rattle.mz_params.specs.Value.{number_fault as number_fault_of, value_fault as value_fault_of};
ghost use Rattle.mz_params.specs.Value.{text_value, whole_value, millionths_value, seed_value, start_value};
ghost use Rattle.mz_params.specs.Value.{mode_value, zero_value};

use crate::fault::ParamFault;
use crate::key::Key;
use crate::key_kind::KeyKind;
use crate::word::word;
use mz_num::{Mic6, NumFault, Ten4, read_mic6, read_signed, read_ten4, read_whole};
use std::str::from_utf8;

/// The fault of a key's value; none where it is accepted.
#[tactic(auto, unfolding(crate::specs::Value::value_fault))]
pub(crate) fn value_fault(key: Key, text: &[u8]) -> Option<ParamFault>
    ensures { result ≡ value_fault_of key text.now }
{
    match key.kind() {
        KeyKind::Text => read_text(key, text).err(),
        KeyKind::Whole => read_number(key, text).err(),
        KeyKind::Millionths => read_millionths(key, text).err(),
        KeyKind::Seed => read_seed(key, text).err(),
        KeyKind::Start => read_start(key, text).err(),
        KeyKind::Mode => read_mode(key, text).err(),
        KeyKind::Zero => read_zero(key, text).err(),
    }
}

/// A text, which is UTF-8.
#[tactic(auto, unfolding(crate::specs::Value::text_value))]
pub(crate) fn read_text(key: Key, text: &[u8]) -> Result<&str, ParamFault>
    ensures { MatchResult result (λ s. text_value key text.now ≡ Ok s.now) (λ r. text_value key text.now ≡ Err r) }
{
    match from_utf8(text) {
        Ok(text) => Ok(text),
        Err(_) => Err(ParamFault::BadValue(key)),
    }
}

/// A whole number in the key's range.
#[tactic(auto, unfolding(crate::specs::Value::whole_value))]
pub(crate) fn read_number(key: Key, text: &[u8]) -> Result<u64, ParamFault>
    ensures { result ≡ whole_value key text.now }
{
    match read_whole(word(text), key.greatest()) {
        Ok(number) if number < key.least() => Err(ParamFault::OutOfRange(key)),
        Ok(number) => Ok(number),
        Err(fault) => Err(number_fault(key, fault)),
    }
}

/// A number of millionths in the key's range.
#[tactic(auto, unfolding(crate::specs::Value::millionths_value))]
pub(crate) fn read_millionths(key: Key, text: &[u8]) -> Result<Mic6, ParamFault>
    ensures { result ≡ millionths_value key text.now }
{
    match read_mic6(word(text)) {
        Ok(number) if number.0 < key.least() || number.0 > key.greatest() => Err(
            ParamFault::OutOfRange(key),
        ),
        Ok(number) => Ok(number),
        Err(fault) => Err(number_fault(key, fault)),
    }
}

/// A random seed; none where the number is below 0.
#[tactic(auto, unfolding(crate::specs::Value::seed_value))]
pub(crate) fn read_seed(key: Key, text: &[u8]) -> Result<Option<u32>, ParamFault>
    ensures { result ≡ seed_value key text.now }
{
    match read_signed(word(text)) {
        Ok(number) if number < 0 => Ok(None),
        Ok(number) => Ok(Some(number as u32)),
        Err(fault) => Err(number_fault(key, fault)),
    }
}

/// A temperature to start at; none where the number is below 0.
#[tactic(auto, unfolding(crate::specs::Value::start_value))]
pub(crate) fn read_start(key: Key, text: &[u8]) -> Result<Option<Ten4>, ParamFault>
    ensures { result ≡ start_value key text.now }
{
    match read_ten4(word(text)) {
        Ok(number) => Ok(Some(number)),
        Err(NumFault::Negative) => Ok(None),
        Err(fault) => Err(number_fault(key, fault)),
    }
}

/// One of the three run modes.
#[tactic(auto, unfolding(crate::specs::Value::mode_value))]
pub(crate) fn read_mode(key: Key, text: &[u8]) -> Result<u8, ParamFault>
    ensures { result ≡ mode_value key text.now }
{
    match read_signed(word(text)) {
        Ok(1) => Ok(1),
        Ok(4) => Ok(4),
        Ok(6) => Ok(6),
        Ok(_) => Err(ParamFault::LeftOut(key)),
        Err(fault) => Err(number_fault(key, fault)),
    }
}

/// The number 0, which is all that the key takes.
#[tactic(auto, unfolding(crate::specs::Value::zero_value))]
pub(crate) fn read_zero(key: Key, text: &[u8]) -> Result<u8, ParamFault>
    ensures { result ≡ zero_value key text.now }
{
    match read_mic6(word(text)) {
        Ok(Mic6(0)) => Ok(0),
        Err(NumFault::Empty | NumFault::NotANumber) => Err(ParamFault::BadValue(key)),
        _ => Err(ParamFault::LeftOut(key)),
    }
}

/// The fault of a key that takes no number below 0.
fn number_fault(key: Key, fault: NumFault) -> ParamFault
    ensures { result ≡ number_fault_of key fault }
{
    match fault {
        NumFault::Empty | NumFault::NotANumber => ParamFault::BadValue(key),
        NumFault::Negative | NumFault::TooLarge => ParamFault::OutOfRange(key),
    }
}

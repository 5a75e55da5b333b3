//! Numbers as the output files write them.
ghost use Rattle.std.specs.Prelude.{◌≡◌, ◌+◌, ◌%◌, ◌++◌, OnOk, OnErr, length, take};
ghost use Rattle.mz_num.specs.Decimal.{ten4_text, fraction_text};

use crate::memory::NoMemory;
use itoa::Buffer;
use std::alloc::Global;

/// Appends a whole number of ten-thousandths: its whole part, a point and four digits.
/// After want of memory `out` is as before.
pub fn write_ten4(_alloc: Global, value: u128, out: &mut Vec<u8>) -> Result<(), NoMemory>
    ensures ok { OnOk result (out.new.items ≡ out.old.items ++ ten4_text value) }
    ensures err { OnErr result (out.new.items ≡ out.old.items) }
{
    let before = out.len();
    let written = append(value, out);
    if written.is_err() {
        out.truncate(before);
    }
    written
}

/// Appends the text, or some front of it.
#[tactic(auto, unfolding(crate::specs::Decimal::ten4_text))]
fn append(value: u128, out: &mut Vec<u8>) -> Result<(), NoMemory>
    ensures ok { OnOk result (out.new.items ≡ out.old.items ++ ten4_text value) }
    ensures err { OnErr result (take (length out.old.items) out.new.items ≡ out.old.items) }
{
    let mut buffer = Buffer::new();
    out.extend_from_slice(buffer.format(value / 10_000).as_bytes())?;
    out.extend_from_slice(&fraction(value))?;
    Ok(())
}

/// The point and the four digits behind it.
fn fraction(value: u128) -> [u8; 5]
    ensures { result ≡ fraction_text value }
{
    let rest = (value % 10_000) as u16;
    [
        b'.',
        digit(rest / 1000),
        digit(rest / 100),
        digit(rest / 10),
        digit(rest),
    ]
}

fn digit(n: u16) -> u8
    ensures { result ≡ 48 + n % 10 }
{
    b'0' + (n % 10) as u8
}

//! The words of a line.
ghost use Rattle.std.specs.Prelude.{◌≡◌};
ghost use Rattle.std.specs.List.{position};
ghost use Rattle.mz_num.specs.Blank.{is_blank};
ghost use Rattle.mz_params.specs.Value.{first_word};

/// The first word of a text: what stands before its first space or tab.
pub(crate) fn word(text: &[u8]) -> &[u8]
    ensures { result.now ≡ first_word text.now }
{
    match blank_place(text) {
        Some(end) => &text[..end],
        None => text,
    }
}

/// The place of the first space or tab.
fn blank_place(text: &[u8]) -> Option<usize>
    ensures { result ≡ position is_blank text.now }
{
    text.iter().position(|byte| *byte == b' ' || *byte == b'\t')
}

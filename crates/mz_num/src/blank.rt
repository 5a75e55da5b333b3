//! Blanks at the ends of a value.
ghost use Rattle.std.specs.Prelude.{◌≡◌};
ghost use Rattle.mz_num.specs.Blank.{trimmed, without_leading_blanks, without_trailing_blanks, is_blank};

/// The text without spaces and tabs at both ends, as every value of the profile is read.
#[tactic(auto, unfolding(crate::specs::Blank::trimmed))]
pub fn trim(text: &[u8]) -> &[u8]
    ensures { result.now ≡ trimmed text.now }
{
    trim_end(trim_start(text))
}

fn trim_start(text: &[u8]) -> &[u8]
    ensures { result.now ≡ without_leading_blanks text.now }
{
    let mut rest = text;
    while let [first, others @ ..] = rest {
        if !is_blank_byte(*first) {
            break;
        }
        rest = others;
    }
    rest
}

fn trim_end(text: &[u8]) -> &[u8]
    ensures { result.now ≡ without_trailing_blanks text.now }
{
    let mut end = text.len();
    while end > 0 && is_blank_byte(text[end - 1]) {
        end -= 1;
    }
    &text[..end]
}

fn is_blank_byte(byte: u8) -> bool
    ensures { result ≡ is_blank byte }
{
    byte == b' ' || byte == b'\t'
}

//! The byte that stands between the fields of a table.
ghost use Rattle.std.specs.Prelude.{◌≡◌, position};
ghost use Rattle.std.specs.List.{before_first, list_any};
ghost use Rattle.mz_tables.specs.Delimiter.{delimiter_of, is_comma, is_line_end};

/// The comma where the bytes before the first CR or LF hold one, else the tab: this project's
/// profile takes both kinds of table.
#[tactic(auto, unfolding(crate::specs::Delimiter::delimiter_of))]
pub(crate) fn delimiter(bytes: &[u8]) -> u8
    ensures { result ≡ delimiter_of bytes.now }
{
    if has_comma(first_line(bytes)) {
        b','
    } else {
        b'\t'
    }
}

fn has_comma(line: &[u8]) -> bool
    ensures { result ≡ list_any is_comma line.now }
{
    line.iter().any(|byte| *byte == b',')
}

/// The bytes before the first line end.
fn first_line(bytes: &[u8]) -> &[u8]
    ensures { result.now ≡ before_first is_line_end bytes.now }
{
    match line_end(bytes) {
        Some(place) => &bytes[..place],
        None => bytes,
    }
}

/// The place of the first CR or LF.
fn line_end(bytes: &[u8]) -> Option<usize>
    ensures { result ≡ position is_line_end bytes.now }
{
    bytes
        .iter()
        .position(|byte| *byte == b'\r' || *byte == b'\n')
}

//! A line as its words.
ghost use Rattle.std.specs.Prelude.{◌≡◌, ◌<◌, ◌≤◌, ◌∷◌, [], length, drop, option_map, IfSome, MatchOption, not};
ghost use Rattle.std.specs.List.{position_or_len};
ghost use Rattle.hic_asm.specs.Text.{is_plain as plain, uncommented_text};
ghost use Rattle.hic_asm.specs.Words.{is_blank as blank, is_text, words};

/// What stands before the comment of a line. None where the line, its comment too, is not all tabs and bytes from the
/// space to `~`.
pub(crate) fn uncommented_text(line: &[u8]) -> Option<&[u8]>
    ensures { option_map (λ code. code.now) result ≡ uncommented_text line.now }
{
    let (code, rest) = line.split_at(plain_len(line));
    if is_text(rest) { Some(code) } else { None }
}

/// How many bytes a line begins with that are text and no semicolon.
fn plain_len(line: &[u8]) -> usize
    ensures len { result ≡ position_or_len (λ byte. not (plain byte)) line.now }
    ensures bound { result ≤ length line.now }
{
    line.iter()
        .position(|byte| !is_plain(*byte))
        .unwrap_or(line.len())
}

/// Whether a byte is a tab or from the space to `~`, and no semicolon.
fn is_plain(byte: u8) -> bool
    ensures { result ≡ plain byte }
{
    matches!(byte, b' '..=b':' | b'<'..=b'~' | b'\t')
}

/// Whether all of these bytes are tabs and from the space to `~`.
fn is_text(bytes: &[u8]) -> bool
    ensures { result ≡ is_text bytes.now }
{
    bytes
        .iter()
        .all(|byte| *byte == b'\t' || (b' '..=b'~').contains(byte))
}

/// The first word of a text, and the text after it. None where it has no word.
pub(crate) fn next_word(text: &[u8]) -> Option<(&[u8], &[u8])>
    ensures word { MatchOption result (words text.now ≡ []) (λ x. words text.now ≡ x.0.now ∷ words x.1.now) }
    ensures shorter { IfSome result (λ x. length x.1.now < length text.now) }
{
    let left = after_blanks(text);
    if left.is_empty() {
        return None;
    }
    Some(left.split_at(word_len(left)))
}

/// The text without the blanks that it begins with.
fn after_blanks(text: &[u8]) -> &[u8]
    ensures { result.now ≡ drop (position_or_len (λ byte. not (blank byte)) text.now) text.now }
{
    &text[blanks_len(text)..]
}

/// How many blanks a text begins with.
fn blanks_len(text: &[u8]) -> usize
    ensures len { result ≡ position_or_len (λ byte. not (blank byte)) text.now }
    ensures bound { result ≤ length text.now }
{
    text.iter()
        .position(|byte| !is_blank(*byte))
        .unwrap_or(text.len())
}

/// How many bytes a text begins with that are no blanks.
fn word_len(text: &[u8]) -> usize
    ensures len { result ≡ position_or_len blank text.now }
    ensures bound { result ≤ length text.now }
{
    text.iter()
        .position(|byte| is_blank(*byte))
        .unwrap_or(text.len())
}

/// Whether a byte stands between words: a space or a tab.
fn is_blank(byte: u8) -> bool
    ensures { result ≡ blank byte }
{
    byte == b' ' || byte == b'\t'
}

/// How many words a text has.
pub(crate) fn count_words(text: &[u8]) -> usize
    ensures { result ≡ length (words text.now) }
{
    let mut count = 0;
    let mut rest = text;
    while let Some((_, after)) = next_word(rest) {
        count += 1;
        rest = after;
    }
    count
}

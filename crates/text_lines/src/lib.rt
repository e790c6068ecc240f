//! The pieces of a text: what stands between its line feeds.
#![tactic(auto)]

ghost use Rattle.std.specs.Prelude.{◌≡◌, ◌<◌, ◌∷◌, [], length, position, None, IfSome, MatchOption};
ghost use Rattle.std.specs.Str.Lines.{strip_carriage_return};
ghost use Rattle.text_lines.specs.Pieces.{is_line_feed, pieces};

/// The first piece of a text, and the text after it. None where the text has no piece.
///
/// A piece ends at a line feed or at the end of the text. The carriage return at its end is dropped first; then a last
/// piece that is empty does not count.
pub fn next_piece(text: &[u8]) -> Option<(&[u8], &[u8])>
    ensures piece { MatchOption result (pieces text.now ≡ []) (λ x. pieces text.now ≡ x.0.now ∷ pieces x.1.now) }
    ensures shorter { IfSome result (λ x. length x.1.now < length text.now) }
{
    match first_line_feed(text) {
        Some(end) => Some((without_return(&text[..end]), &text[end + 1..])),
        None => last_piece(text),
    }
}

/// The piece that a text without a line feed is, with no text after it.
fn last_piece(text: &[u8]) -> Option<(&[u8], &[u8])>
    requires { position is_line_feed text.now ≡ None }
    ensures piece { MatchOption result (pieces text.now ≡ []) (λ x. pieces text.now ≡ x.0.now ∷ pieces x.1.now) }
    ensures shorter { IfSome result (λ x. length x.1.now < length text.now) }
{
    let piece = without_return(text);
    if piece.is_empty() {
        return None;
    }
    Some((piece, &[]))
}

/// The part without the one carriage return at its end.
fn without_return(part: &[u8]) -> &[u8]
    ensures { result.now ≡ strip_carriage_return part.now }
{
    match part {
        [front @ .., b'\r'] => front,
        _ => part,
    }
}

/// Where the first line feed stands.
fn first_line_feed(text: &[u8]) -> Option<usize>
    ensures place { result ≡ position is_line_feed text.now }
    ensures within { IfSome result (λ end. end < length text.now) }
{
    text.iter().position(|byte| *byte == b'\n')
}

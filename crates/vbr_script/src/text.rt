// The lines of a text and the tokens of a line, one at a time.
ghost use Rattle.std.specs.Prelude.{◌≡◌, ◌<◌, false, [], ◌∷◌, length, slice_index, MatchOption};
ghost use Rattle.std.specs.Str.Lines.{strip_carriage_return};
ghost use Rattle.vbr_script.specs.Text.{is_blank, lines_of, tokens_of};

use memchr::memchr;

// The first line of a text, and the text after its line feed, if it has one.
pub fn first_line(text: &[u8]) -> (&[u8], Option<&[u8]>)
    ensures { MatchOption result.1 (lines_of text.now ≡ result.0.now ∷ [])
        (λ rest. (lines_of text.now ≡ result.0.now ∷ lines_of rest.now)
        × (length rest.now < length text.now)) }
{
    match memchr(b'\n', text) {
        Some(end) => (without_return(&text[..end]), Some(&text[end + 1..])),
        None => (without_return(text), None),
    }
}

fn without_return(line: &[u8]) -> &[u8]
    ensures { result.now ≡ strip_carriage_return line.now }
{
    match line.split_last() {
        Some((b'\r', front)) => front,
        _ => line,
    }
}

// The first token of a line, and the line after it.
pub fn first_token(line: &[u8]) -> Option<(&[u8], &[u8])>
    ensures { MatchOption result (tokens_of line.now ≡ [])
        (λ found. tokens_of line.now ≡ found.0.now ∷ tokens_of found.1.now) }
{
    let line = without_blanks(line);
    if line.is_empty() {
        return None;
    }
    let end = line.iter().position(|byte| is_blank(*byte));
    Some(line.split_at(end.unwrap_or(line.len())))
}

// The line from its first byte on that is no blank.
fn without_blanks(line: &[u8]) -> &[u8]
    ensures tokens { tokens_of result.now ≡ tokens_of line.now }
    ensures front { 0 < length result.now → is_blank (slice_index result.now 0) ≡ false }
{
    let mut rest = line;
    while let Some((first, more)) = rest.split_first() {
        if !is_blank(*first) {
            break;
        }
        rest = more;
    }
    rest
}

fn is_blank(byte: u8) -> bool
    ensures { result ≡ is_blank byte }
{
    byte == b' ' || byte == b'\t'
}

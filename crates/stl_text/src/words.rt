// Cuts lines and words.

ghost use Rattle.std.specs.Prelude.{◌≡◌, ◌+◌, ◌<◌, ◌≤◌, [], ◌∷◌, length, MatchOption};
ghost use Rattle.stl_text.specs.Words.{lines_of, words_of, is_blank, is_keyword};
ghost use Rattle.stl_text.specs.Inner.Cuts.{line_len, blank_len, word_len};

// How long the first line is, without its line feed.
fn line_length(text: &[u8]) -> usize
    ensures exact { result ≡ line_len text.now }
    ensures within { result ≤ length text.now }
{
    let mut i = 0;
    'bytes: while i < text.len() && text[i] != b'\n' {
        i += 1;
    }
    i
}

/// The first line of a text, and what follows its line feed.
pub fn split_line(text: &[u8]) -> (&[u8], &[u8])
    requires { 0 < length text.now }
    ensures lines { lines_of text.now ≡ result.0.now ∷ lines_of result.1.now }
    ensures shorter { length result.1.now < length text.now }
{
    let length = line_length(text);
    if length < text.len() {
        (&text[..length], &text[length + 1..])
    } else {
        (text, &[])
    }
}

fn is_blank(b: u8) -> bool
    ensures { result ≡ is_blank b }
{
    b == b' ' || b == b'\t' || b == b'\r'
}

// How many blanks stand at the front.
fn blank_length(text: &[u8]) -> usize
    ensures exact { result ≡ blank_len text.now }
    ensures within { result ≤ length text.now }
{
    let mut i = 0;
    'bytes: while i < text.len() && is_blank(text[i]) {
        i += 1;
    }
    i
}

// How many bytes that aren't blank stand at the front.
fn word_length(text: &[u8]) -> usize
    ensures exact { result ≡ word_len text.now }
    ensures within { result ≤ length text.now }
{
    let mut i = 0;
    'bytes: while i < text.len() && !is_blank(text[i]) {
        i += 1;
    }
    i
}

/// The first word of a line, and what follows it.
pub fn split_word(text: &[u8]) -> Option<(&[u8], &[u8])>
    ensures { MatchOption result (words_of text.now ≡ [])
        (λ parts. words_of text.now ≡ parts.0.now ∷ words_of parts.1.now) }
{
    let front = &text[blank_length(text)..];
    if front.is_empty() {
        return None;
    }
    Some(front.split_at(word_length(front)))
}

/// Whether a word is a keyword, in any ASCII case.
pub fn is_keyword(word: &[u8], keyword: &[u8]) -> bool
    ensures { result ≡ is_keyword word.now keyword.now }
{
    word.eq_ignore_ascii_case(keyword)
}

// Texts that are put together piece by piece.

use slice_base::NoMemory;

// A longer word isn't told again.
const TOLD: usize = 200;

pub(crate) fn push(text: &mut Vec<u8>, part: &[u8]) -> Result<(), NoMemory> {
    text.extend_from_slice(part)?;
    Ok(())
}

pub(crate) fn push_number(text: &mut Vec<u8>, n: u128) -> Result<(), NoMemory> {
    let mut digits = itoa::Buffer::new();
    push(text, digits.format(n).as_bytes())
}

/// Puts a word of the command line between quotes.
pub(crate) fn push_word(text: &mut Vec<u8>, word: &[u8]) -> Result<(), NoMemory> {
    if word.len() > TOLD {
        return push(text, b"a long word");
    }
    push(text, b"'")?;
    push(text, word)?;
    push(text, b"'")
}

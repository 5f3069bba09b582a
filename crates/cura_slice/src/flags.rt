// Which words stand for themselves, and which are taken by the one before.

// Whether the word takes the next one.
fn takes_next(word: &str) -> bool {
    word == "-j" || word == "-l" || word == "-s" || word == "-o"
}

/// Whether the word at that index, from 0, is taken by the one before; the first, the command, takes none.
pub(crate) fn is_taken(words: &[String], index: usize) -> bool {
    let mut taken = false;
    for (i, word) in words.iter().enumerate() {
        if i == index {
            return taken;
        }
        taken = i > 0 && !taken && takes_next(word.as_str());
    }
    false
}

/// Whether the flag is among the words behind the command, and taken by none.
pub(crate) fn has_flag(words: &[String], flag: &str) -> bool {
    let mut taken = false;
    for (i, word) in words.iter().enumerate() {
        if i > 0 && !taken && word.as_str() == flag {
            return true;
        }
        taken = i > 0 && !taken && takes_next(word.as_str());
    }
    false
}

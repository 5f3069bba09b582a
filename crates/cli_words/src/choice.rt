// What a word chooses, with the word behind it where it takes one.

ghost use Rattle.std.specs.Prelude.{◌≡◌, ◌+◌, ◌<◌, ◌≤◌, ◌==◌, ◌∷◌, length, map, drop, position, string_bytes, MatchResult, IfSome, IfOk, true, Ok, Err, None, option_map};
ghost use Rattle.cli_words.specs.Choices.{taker_of, cut, words_in, numeral, number_of, extruder_of, workers_of, numbered, alone_of, pair_of, taken_of, is_full, or_fault, is_mesh, choice_of};
ghost use Rattle.cli_words.specs.Inner.Seen.{seen_piece, seen};

/// A word that takes the next one.
#[derive(Clone, Copy, PartialEq, Eq)]
pub enum Taker {
    /// `-j` and a settings file
    Settings,
    /// `-l` and a mesh file
    Mesh,
    /// `-s` and a key with a value
    Pair,
    /// `-o` and a file to write
    Output,
}

fn taker_of(word: &str) -> Option<Taker>
    ensures { result ≡ taker_of word.now }
{
    if word == "-j" {
        Some(Taker::Settings)
    } else if word == "-l" {
        Some(Taker::Mesh)
    } else if word == "-s" {
        Some(Taker::Pair)
    } else if word == "-o" {
        Some(Taker::Output)
    } else {
        None
    }
}

/// A word, with the next one where it takes one.
#[derive(Clone, Copy)]
pub enum WordPiece<'a> {
    Alone(&'a str),
    Taking(Taker, &'a str),
    /// The last word takes one that isn't there.
    Lacking,
}

impl WordPiece<'_> {
    ghost use Rattle.cli_words.specs.Choices.{words_in};
    ghost use Rattle.cli_words.specs.Inner.Seen.{seen_piece};

    /// How many words it has.
    pub fn words(self) -> usize
        ensures exact { result ≡ words_in (seen_piece self.entry) }
        ensures some { 0 < result }
    {
        match self {
            WordPiece::Alone(_) => 1,
            WordPiece::Taking(_, _) => 2,
            WordPiece::Lacking => 1,
        }
    }
}

/// The piece that begins with this word.
pub fn piece_at(words: &[String], at: usize) -> WordPiece<'_>
    requires { at < length words.now }
    ensures exact { cut None (map string_bytes (drop at words.now))
        ≡ seen_piece result ∷ cut None (map string_bytes (drop (at + words_in (seen_piece result)) words.now)) }
    ensures within { at + words_in (seen_piece result) ≤ length words.now }
{
    let word = words[at].as_str();
    match taker_of(word) {
        None => WordPiece::Alone(word),
        Some(taker) => {
            if at + 1 < words.len() {
                WordPiece::Taking(taker, words[at + 1].as_str())
            } else {
                WordPiece::Lacking
            }
        }
    }
}

/// What a piece chooses.
#[derive(Clone, Copy)]
pub enum Choice<'a> {
    Settings(&'a str),
    Mesh(&'a str),
    Extruder(u8),
    Everything,
    Pair { key: &'a [u8], value: &'a [u8] },
    Output(&'a str),
    Workers(u8),
    Journal,
    Nothing,
}

impl Choice<'_> {
    ghost use Rattle.cli_words.specs.Choices.{is_settings, is_mesh};
    ghost use Rattle.cli_words.specs.Inner.Seen.{seen};

    pub fn is_settings(self) -> bool
        ensures { result ≡ is_settings (seen self.entry) }
    {
        match self {
            Choice::Settings(_) => true,
            _ => false,
        }
    }

    pub fn is_mesh(self) -> bool
        ensures { result ≡ is_mesh (seen self.entry) }
    {
        match self {
            Choice::Mesh(_) => true,
            _ => false,
        }
    }
}

// The number that these bytes write, where all of them are digits.
fn numeral(digits: &[u8]) -> Option<u64>
    requires { length digits.now ≤ 10 }
    ensures { result ≡ numeral digits.now }
{
    let mut value: u64 = 0;
    let mut at = 0;
    'digits: while at < digits.len() {
        let digit = digits[at];
        if !digit.is_ascii_digit() {
            return None;
        }
        value = value * 10 + u64::from(digit - b'0');
        at += 1;
    }
    Some(value)
}

/// The number that these digits write, where there are enough and not too many, and it is within bounds.
pub fn number_of(digits: &[u8], most: usize, least: u64, greatest: u64) -> Option<u64>
    requires { most ≤ 10 }
    ensures { result ≡ number_of most least greatest digits.now }
{
    if digits.is_empty() || digits.len() > most {
        return None;
    }
    match numeral(digits) {
        None => None,
        Some(value) => {
            if least <= value && value <= greatest {
                Some(value)
            } else {
                None
            }
        }
    }
}

fn extruder_of(digits: &[u8]) -> Option<Choice<'_>>
    ensures { option_map seen result ≡ extruder_of digits.now }
{
    match number_of(digits, 1, 0, 7) {
        None => None,
        Some(n) => Some(Choice::Extruder(n as u8)),
    }
}

fn workers_of(digits: &[u8]) -> Option<Choice<'_>>
    ensures { option_map seen result ≡ workers_of digits.now }
{
    match number_of(digits, 2, 1, 64) {
        None => None,
        Some(n) => Some(Choice::Workers(n as u8)),
    }
}

fn numbered(word: &[u8]) -> Option<Choice<'_>>
    ensures { option_map seen result ≡ numbered word.now }
{
    match word {
        [b'-', b'e', digits @ ..] => extruder_of(digits),
        [b'-', b'm', digits @ ..] => workers_of(digits),
        _ => None,
    }
}

fn alone_of(word: &str) -> Option<Choice<'_>>
    ensures { option_map seen result ≡ alone_of word.now }
{
    if word == "-g" {
        Some(Choice::Everything)
    } else if word == "-v" {
        Some(Choice::Nothing)
    } else if word == "-p" {
        Some(Choice::Nothing)
    } else if word == "--journal" {
        Some(Choice::Journal)
    } else {
        numbered(word.as_bytes())
    }
}

fn equals_sign_in(word: &[u8]) -> Option<usize>
    ensures first { result ≡ position (λ c. c == 61) word.now }
    ensures within { IfSome result (λ at. at < length word.now) }
{
    word.iter().position(|b| *b == b'=')
}

fn behind(word: &[u8], at: usize) -> &[u8]
    requires { at ≤ length word.now }
    ensures { result.now ≡ drop at word.now }
{
    word.split_at(at).1
}

fn pair_of(word: &[u8]) -> Option<Choice<'_>>
    ensures { option_map seen result ≡ pair_of word.now }
{
    match equals_sign_in(word) {
        None => None,
        Some(at) => Some(Choice::Pair {
            key: &word[..at],
            value: behind(word, at + 1),
        }),
    }
}

fn taken_of(taker: Taker, word: &str) -> Option<Choice<'_>>
    ensures { option_map seen result ≡ taken_of taker word.now }
{
    match taker {
        Taker::Settings => Some(Choice::Settings(word)),
        Taker::Mesh => Some(Choice::Mesh(word)),
        Taker::Output => Some(Choice::Output(word)),
        Taker::Pair => pair_of(word.as_bytes()),
    }
}

fn is_full(taker: Taker, files: usize, meshes: usize) -> bool
    ensures { result ≡ is_full taker files meshes }
{
    match taker {
        Taker::Settings => 16 <= files,
        Taker::Mesh => 16 <= meshes,
        _ => false,
    }
}

fn or_fault(number: u64, choice: Option<Choice<'_>>) -> Result<Choice<'_>, u64>
    ensures { let due = or_fault number (option_map seen choice.entry) in
        MatchResult result (λ c. due ≡ Ok (seen c)) (λ n. due ≡ Err n) }
{
    match choice {
        None => Err(number),
        Some(choice) => Ok(choice),
    }
}

/// What a piece chooses behind so many settings files and meshes, or the number of its word at fault.
pub fn choice_of(
    piece: WordPiece<'_>,
    number: u64,
    files: usize,
    meshes: usize,
) -> Result<Choice<'_>, u64>
    requires { number < 18446744073709551615 }
    ensures meshes_few { IfOk result (λ c. is_mesh (seen c) ≡ true → meshes < 16) }
    ensures exact { let due = choice_of number files meshes (seen_piece piece.entry) in
        MatchResult result (λ c. due ≡ Ok (seen c)) (λ n. due ≡ Err n) }
{
    match piece {
        WordPiece::Lacking => Err(number),
        WordPiece::Alone(word) => or_fault(number, alone_of(word)),
        WordPiece::Taking(taker, word) => {
            if is_full(taker, files, meshes) {
                Err(number)
            } else {
                or_fault(number + 1, taken_of(taker, word))
            }
        }
    }
}

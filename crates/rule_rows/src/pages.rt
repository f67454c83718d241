// The texts of rows: pages, flags, numbers and options.
use origin_core::{Flags, PageUrl, read_url};
use std::alloc::{AllocError, Global};

/// The page that a word names: `a` is `https://a.test/`, `-` is none, and a whole URL is itself.
pub fn page(alloc: Global, word: &str) -> Result<Option<PageUrl>, AllocError> {
    if word == "-" {
        return Ok(None);
    }
    let text = if word.contains(':') {
        String::from_str(alloc, word)?
    } else {
        format!(in alloc; "https://{word}.test/")?
    };
    match read_url(alloc, text.as_str(), None) {
        Ok(url) => Ok(Some(url)),
        Err(_) => Ok(None),
    }
}

/// The number that a word is, or one that nothing has.
pub fn number(word: &str) -> u32 {
    word.parse::<u32>().unwrap_or(u32::MAX)
}

/// The value of the option `name=value` among some words, or an empty text.
pub fn option<'a>(words: &'a str, name: &str) -> &'a str {
    for word in words.split(' ') {
        if let Some((key, value)) = word.split_once('=') {
            if key == name {
                return value;
            }
        }
    }
    ""
}

/// Whether a word stands among some words.
pub fn has_word(words: &str, wanted: &str) -> bool {
    words.split(' ').any(|word| word == wanted)
}

/// The flags of these letters: `n` navigation, `a` auxiliary, `t` top-level, `u` top-level with user activation, `o` origin,
/// `s` scripts, `p` propagates.
pub fn flags(letters: &str) -> Flags {
    let mut flags = Flags::NONE;
    for letter in letters.chars() {
        flags = flags.union(flag(letter));
    }
    flags
}

fn flag(letter: char) -> Flags {
    match letter {
        'n' => Flags::from_bits(1),
        'a' => Flags::from_bits(2),
        't' => Flags::from_bits(4),
        'u' => Flags::from_bits(8),
        'o' => Flags::from_bits(16),
        's' => Flags::from_bits(32),
        'p' => Flags::from_bits(64),
        _ => Flags::NONE,
    }
}

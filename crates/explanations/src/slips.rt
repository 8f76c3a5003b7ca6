//! What is meant by a token that is no word or name, where it is one by a slip of the hand.
use line_forms::Stage;
use lines_layout::{Layout, Name};
use text_tokens::{Lines, Tokens};

/// How many bytes a token has at least of which a slip is told: of shorter ones nearly each is another by a slip.
const SHORTEST: usize = 3;

/// What is said of a word that is meant.
pub(crate) const WORD_MEANT: &str = "perhaps `{}` is meant.";

/// What is said of the name of a word that is meant.
pub(crate) const NAME_MEANT: &str = "no word of the program has this name: perhaps `{}` is meant.";

/// What is said of the name of an item that is meant.
pub(crate) const ITEM_MEANT: &str = "no item before has this name: perhaps `{}` is meant.";

/// Words that begin a test of a condition, or stand between tests.
const CONDITION_WORDS: [&str; 5] = ["persisted", "coherent", "reg", "not", "and"];

/// Words that begin lines of a program of a processor.
const PROGRAM_WORDS: [&str; 16] = [
    "mov",
    "add",
    "cmp",
    "xchg",
    "lock",
    "mfence",
    "sfence",
    "clflush",
    "clflushopt",
    "clwb",
    "jmp",
    "jnz",
    "nop",
    "end",
    "recover",
    "cpu",
];

/// Words that bound the lines of a processor, and of its recovery.
const BLOCK_WORDS: [&str; 3] = ["cpu", "recover", "end"];

/// Words that begin lines before the first processor.
const DATA_WORDS: [&str; 3] = ["line", "init", "cpu"];

/// Words that begin an item of a sheet.
const ITEM_STARTS: [&str; 3] = ["let", "every", "some"];

/// Whether two texts that differ in their first bytes are one but for a slip: a byte too many, too few or another, or two bytes
/// the other way round.
fn is_slip_at_first(token: &[u8], word: &[u8]) -> bool {
    match (token, word) {
        ([], [_]) | ([_], []) => true,
        ([a, token_rest @ ..], [b, word_rest @ ..]) => {
            token_rest == word_rest
                || token_rest == word
                || token == word_rest
                || is_turned(*a, token_rest, *b, word_rest)
        }
        _ => false,
    }
}

/// Whether the first two bytes of two texts are the other way round, and all others the same.
fn is_turned(a: u8, token_rest: &[u8], b: u8, word_rest: &[u8]) -> bool {
    match (token_rest, word_rest) {
        ([c, token_rest @ ..], [d, word_rest @ ..]) => {
            a == *d && *c == b && token_rest == word_rest
        }
        _ => false,
    }
}

/// Whether a token is a word but for a slip of the hand.
fn is_slip(token: &[u8], word: &[u8]) -> bool {
    let pairs = token.iter().zip(word);
    let alike = pairs.take_while(|(a, b)| **a == **b).count();
    SHORTEST <= token.len()
        && is_slip_at_first(
            token.get(alike..).unwrap_or(b""),
            word.get(alike..).unwrap_or(b""),
        )
}

/// The first of these words that a token is but for a slip.
fn among(token: &[u8], words: &[&'static str]) -> Option<&'static [u8]> {
    for word in words {
        if is_slip(token, word.as_bytes()) {
            return Some(word.as_bytes());
        }
    }
    None
}

/// Whether a token bounds the lines of a processor, or does but for a slip.
pub(crate) fn bounds_block(token: &[u8]) -> bool {
    BLOCK_WORDS.iter().any(|word| token == word.as_bytes()) || among(token, &BLOCK_WORDS).is_some()
}

/// The first name of a line of a program that a token is but for a slip, where the line names words.
fn among_names<'p>(token: &[u8], line: &'p [u8]) -> Option<&'p [u8]> {
    let mut tokens = Tokens::new(line);
    if tokens.next()? != b"line".as_slice() {
        return None;
    }
    tokens.find(|name| is_slip(token, name))
}

/// The first name of a word of a program, as a text, that a token is but for a slip.
pub(crate) fn name_meant<'p>(token: &[u8], program: &'p [u8]) -> Option<&'p [u8]> {
    for line in Lines::new(program) {
        let name = among_names(token, line);
        if name.is_some() {
            return name;
        }
    }
    None
}

/// The first of these names that a token is but for a slip.
fn among_line<'l>(token: &[u8], names: &'l [Name]) -> Option<&'l [u8]> {
    for name in names {
        if is_slip(token, name.as_str().as_bytes()) {
            return Some(name.as_str().as_bytes());
        }
    }
    None
}

/// The first name of a layout that a token is but for a slip.
fn layout_name_meant<'l>(token: &[u8], layout: &'l Layout) -> Option<&'l [u8]> {
    for line in layout.lines() {
        let name = among_line(token, line.names());
        if name.is_some() {
            return name;
        }
    }
    None
}

/// The word, or the name of a layout, that a token of a condition is but for a slip, where this token is before it; and how that
/// is said, with `{}` for it.
pub(crate) fn condition_meant<'l>(
    token: &[u8],
    before: &[u8],
    layout: &'l Layout,
) -> Option<(&'static str, &'l [u8])> {
    if before == b"persisted".as_slice() || before == b"coherent".as_slice() {
        let name = layout_name_meant(token, layout)?;
        return Some((NAME_MEANT, name));
    }
    let word = among(token, &CONDITION_WORDS)?;
    Some((WORD_MEANT, word))
}

/// The word that begins an item which a token is but for a slip.
pub(crate) fn item_start_meant(token: &[u8]) -> Option<&'static [u8]> {
    among(token, &ITEM_STARTS)
}

/// The word of which items are made that a token is but for a slip.
pub(crate) fn item_word_meant(token: &[u8]) -> Option<&'static [u8]> {
    item_start_meant(token).or(among(token, &CONDITION_WORDS))
}

/// The name of the item that a line begins, if it begins one.
fn item_named(line: &[u8]) -> Option<&[u8]> {
    let mut tokens = Tokens::new(line);
    let first = tokens.next()?;
    let second = tokens.next()?;
    if first == b"let".as_slice() {
        Some(second)
    } else if first == b"every".as_slice() || first == b"some".as_slice() {
        tokens.next()
    } else {
        None
    }
}

/// The first item of the lines above this one, from 1, whose name a token is but for a slip.
pub(crate) fn item_meant<'s>(token: &[u8], sheet: &'s [u8], number: usize) -> Option<&'s [u8]> {
    for line in Lines::new(sheet).take(number.saturating_sub(1)) {
        match item_named(line) {
            Some(name) if is_slip(token, name) => return Some(name),
            _ => {}
        }
    }
    None
}

/// The word that a token at the beginning of a line of a program is but for a slip, where the reading is at this stage.
pub(crate) fn word_meant(token: &[u8], stage: Stage) -> Option<&'static [u8]> {
    match stage {
        Stage::Main | Stage::Recovery => among(token, &PROGRAM_WORDS),
        Stage::Data => among(token, &DATA_WORDS),
        Stage::Opening | Stage::Between => None,
    }
}

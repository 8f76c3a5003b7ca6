//! What a hint may ask of a token that is refused, and of what is around it.
use crate::parts::bytes_at;
use isa::Reg;
use line_forms::{Place, Stage, condition_or_end, statement_or_end, token_or_end};
use lines_layout::{Layout, NAME_LENGTH, is_name};
use text_tokens::{Lines, Tokens, begins_number, number};

/// How many tokens of a line are told apart by their index.
const INDICES: usize = 6;

/// Words that begin tests of conditions.
const TEST_WORDS: [&str; 3] = ["persisted", "coherent", "reg"];

/// What has to be true of a token, or of what is around it.
#[derive(Clone, Copy)]
pub(crate) enum Test {
    /// It is this word.
    Is(&'static str),
    /// It is one of these words.
    IsOneOf(&'static [&'static str]),
    /// It begins as one of these.
    Begins(&'static [&'static str]),
    /// It ends so.
    Ends(&'static str),
    /// It has one of these characters.
    Has(&'static str),
    /// It has none of these characters.
    Lacks(&'static str),
    /// It has a letter or a digit.
    HasAlphanumeric,
    /// It has a letter in upper case.
    HasUppercase,
    /// It has a byte that is not ASCII.
    HasOtherThanAscii,
    /// It has a byte that is in no name.
    HasOtherThanName,
    /// Its first byte begins no name.
    BeginsNoName,
    /// It is longer than a name.
    IsLong,
    /// It is the name of a register.
    Register,
    /// It may be the name of a word.
    Name,
    /// It is a number, or it is none.
    Number(bool),
    /// It begins as a number.
    BeginsNumber,
    /// So many tokens of its line are before it.
    At(usize),
    /// More than so many are.
    After(usize),
    /// The first token of its line is this word.
    First(&'static str),
    /// The second token of its line is this word.
    Second(&'static str),
    /// It is the same as the first token of its line.
    SameAsFirst,
    /// Its line has two operands, which are the same register.
    OfOneRegister,
    /// The reading of the program is at one of these stages before its line.
    In(&'static [Stage]),
    /// Its program begins as one of these.
    ProgramBegins(&'static [&'static [u8]]),
    /// A line of its program gives a word this name, or none does.
    Given(bool),
    /// A `[` may be in its place.
    TakesBracket,
    /// One of the three tokens before it begins a test of a condition, or none does.
    InTest(bool),
    /// The token before it in a condition is one of these words.
    Behind(&'static [&'static str]),
    /// A word of the layout has this name.
    WordOfLayout,
}

/// A token that is refused, and what is around it.
#[derive(Clone, Copy)]
pub(crate) struct Spot<'a> {
    /// The token, or no bytes where one is missing.
    pub(crate) token: &'a [u8],
    /// Its line.
    pub(crate) line: &'a [u8],
    /// How many tokens of the line are before it, where they are fewer than `INDICES`.
    index: usize,
    /// The program.
    program: &'a [u8],
    /// Where the reading of the program is before the line.
    stage: Stage,
    /// Whether a `[` may be in its place.
    takes_bracket: bool,
    /// Whether one of the three tokens before it begins a test of a condition.
    is_in_test: bool,
    /// The token before it in a condition, or no bytes.
    pub(crate) before: &'a [u8],
    /// Whether a word of the layout has this name.
    is_word: bool,
}

/// How many tokens of a line are before a place, where they are fewer than `INDICES`.
fn index_of(line: &[u8], place: Place) -> usize {
    (0..INDICES)
        .find(|index| token_or_end(line, *index) == place)
        .unwrap_or(INDICES)
}

/// The token of this index of a condition, or no bytes.
fn condition_token(text: &[u8], index: usize) -> &[u8] {
    bytes_at(text, condition_or_end(text, index))
}

/// The token of this index of a line of a sheet's items, or no bytes.
fn item_token(line: &[u8], index: usize) -> &[u8] {
    bytes_at(line, statement_or_end(line, index))
}

/// The token before that of this index of a condition, or no bytes.
fn token_before(text: &[u8], index: usize) -> &[u8] {
    match index.checked_sub(1) {
        Some(before) => condition_token(text, before),
        None => b"",
    }
}

/// Whether one of the three tokens before that of this index of a condition begins a test.
fn is_in_test(text: &[u8], index: usize) -> bool {
    (index.saturating_sub(3)..index).any(|before| is_one_of(
        condition_token(text, before),
        &TEST_WORDS,
    ))
}

/// Whether a token is one of these words.
fn is_one_of(token: &[u8], words: &[&'static str]) -> bool {
    words.iter().any(|word| token == word.as_bytes())
}

/// Whether a token has one of these bytes.
fn has_one_of(token: &[u8], bytes: &[u8]) -> bool {
    token.iter().any(|byte| bytes.contains(byte))
}

/// Whether a byte may be in a name.
fn is_name_byte(byte: u8) -> bool {
    byte.is_ascii_lowercase() || byte.is_ascii_digit() || byte == b'_'
}

/// Whether the first byte of a token begins no name.
fn begins_no_name(token: &[u8]) -> bool {
    match token {
        [first, ..] => !first.is_ascii_lowercase(),
        [] => false,
    }
}

/// Whether a line gives a word this name.
pub(crate) fn gives(line: &[u8], name: &[u8]) -> bool {
    let mut tokens = Tokens::new(line);
    tokens.next() == Some(b"line".as_slice()) && tokens.any(|token| token == name)
}

impl<'a> Spot<'a> {
    /// A token of a line, of which nothing else is known.
    pub(crate) fn on_line(line: &'a [u8], token: &'a [u8]) -> Spot<'a> {
        Spot {
            token,
            line,
            index: INDICES,
            program: b"",
            stage: Stage::Data,
            takes_bracket: false,
            is_in_test: false,
            before: b"",
            is_word: false,
        }
    }

    /// A token of a program: at this place of a line, before which the reading is at this stage.
    pub(crate) fn in_program(
        program: &'a [u8],
        stage: Stage,
        line: &'a [u8],
        place: Place,
        takes_bracket: bool,
    ) -> Spot<'a> {
        Spot {
            index: index_of(line, place),
            program,
            stage,
            takes_bracket,
            ..Spot::on_line(line, bytes_at(line, place))
        }
    }

    /// The token of this index of a condition on the words of a layout.
    pub(crate) fn in_condition(layout: &Layout, text: &'a [u8], index: usize) -> Spot<'a> {
        let token = condition_token(text, index);
        Spot {
            is_in_test: is_in_test(text, index),
            before: token_before(text, index),
            is_word: layout.word(token).is_some(),
            ..Spot::on_line(text, token)
        }
    }

    /// The token of this index of a line of a sheet's items, of which these lines give the words.
    pub(crate) fn in_item(said: &'a [u8], line: &'a [u8], index: usize) -> Spot<'a> {
        let token = item_token(line, index);
        Spot {
            program: said,
            before: match index.checked_sub(1) {
                Some(before) => item_token(line, before),
                None => b"",
            },
            is_word: Lines::new(said).any(|line| gives(line, token)),
            ..Spot::on_line(line, token)
        }
    }

    /// The line's token of this index, or no bytes.
    fn line_token(&self, index: usize) -> &'a [u8] {
        Tokens::new(self.line).nth(index).unwrap_or(b"")
    }

    /// The operand that a hint speaks of: the token, or the second one of its line where it is the first.
    pub(crate) fn operand(&self) -> &'a [u8] {
        if self.index == 0 {
            self.line_token(1)
        } else {
            self.token
        }
    }

    /// Whether the line has two operands, which are the same register.
    fn is_of_one_register(&self) -> bool {
        self.line_token(1) == self.line_token(3) && Reg::named(self.line_token(1)).is_some()
    }

    /// Whether a line of the program gives a word this name.
    fn is_given(&self) -> bool {
        Lines::new(self.program).any(|line| gives(line, self.token))
    }

    /// Whether a test of the token's bytes holds, if the test is one.
    fn spells(&self, test: Test) -> bool {
        let token = self.token;
        match test {
            Test::Is(word) => token == word.as_bytes(),
            Test::IsOneOf(words) => is_one_of(token, words),
            Test::Begins(starts) => starts
                .iter()
                .any(|start| token.starts_with(start.as_bytes())),
            Test::Ends(end) => token.ends_with(end.as_bytes()),
            Test::Has(bytes) => has_one_of(token, bytes.as_bytes()),
            Test::Lacks(bytes) => !has_one_of(token, bytes.as_bytes()),
            Test::HasAlphanumeric => token.iter().any(|byte| byte.is_ascii_alphanumeric()),
            Test::HasUppercase => token.iter().any(|byte| byte.is_ascii_uppercase()),
            Test::HasOtherThanAscii => token.iter().any(|byte| !byte.is_ascii()),
            Test::HasOtherThanName => token.iter().any(|byte| !is_name_byte(*byte)),
            Test::BeginsNoName => begins_no_name(token),
            Test::IsLong => token.len() > NAME_LENGTH,
            Test::Register => Reg::named(token).is_some(),
            Test::Name => is_name(token),
            Test::Number(is) => number(token).is_some() == is,
            Test::BeginsNumber => begins_number(token),
            _ => false,
        }
    }

    /// Whether a test holds.
    pub(crate) fn meets(&self, test: Test) -> bool {
        match test {
            Test::At(index) => self.index == index,
            Test::After(index) => index < self.index,
            Test::First(word) => self.line_token(0) == word.as_bytes(),
            Test::Second(word) => self.line_token(1) == word.as_bytes(),
            Test::SameAsFirst => self.line_token(0) == self.token,
            Test::OfOneRegister => self.is_of_one_register(),
            Test::In(stages) => stages.iter().any(|stage| *stage == self.stage),
            Test::ProgramBegins(starts) => starts
                .iter()
                .any(|start| self.program.starts_with(start)),
            Test::Given(is) => self.is_given() == is,
            Test::TakesBracket => self.takes_bracket,
            Test::InTest(is) => self.is_in_test == is,
            Test::Behind(words) => is_one_of(self.before, words),
            Test::WordOfLayout => self.is_word,
            _ => self.spells(test),
        }
    }
}

//! The values of an image, as a text on the command line.
ghost use Rattle.std.specs.Prelude.{◌≡◌};
ghost use Rattle.std.specs.Char.{is_ascii_digit};
ghost use Rattle.std.specs.List.{list_all};
ghost use Rattle.text_tokens.specs.Text.{tokens_of};
ghost use Rattle.commands.specs.Works.{Makes, work};
ghost use Rattle.commands.specs.declared.fault.Stage.TheVariants as stages;
ghost use Rattle.jobs.specs.Values.{value_of, values_of, values_work, word_count};

use commands::{Fault, Refused, Stage};
use images::Image;
use lines_layout::Layout;
use std::alloc::Global;
use text_tokens::{Tokens, number};

/// What is answered where the values are not those of an image of the program.
const USAGE: Fault = Fault::Refused(Refused::Usage);

/// What begins a comment, which values may not have.
const HASH: u8 = b'#';

/// How many words a layout has.
fn word_count(layout: &Layout) -> usize
    ensures { result ≡ word_count layout.now }
{
    let counts = layout.shape().words();
    let mut total = 0;
    for count in counts {
        total += usize::from(*count);
    }
    total
}

/// Whether a token has decimal digits alone.
fn has_digits_alone(token: &[u8]) -> bool
    ensures { result ≡ list_all is_ascii_digit token.now }
{
    token.iter().all(|byte| byte.is_ascii_digit())
}

/// The value that a token spells: 1 to 20 decimal digits and nothing else, below 2^64.
fn value_of(token: &[u8]) -> Option<u64>
    ensures { result ≡ value_of token.now }
{
    if has_digits_alone(token) {
        number(token)
    } else {
        None
    }
}

/// The image whose values the tokens of a text spell.
#[tactic(auto, using(crate::proofs::ValueTokens::value_steps), unfolding(commands::specs::Works::Makes))]
fn image_of(alloc: Global, text: &[u8]) -> Result<Image, Fault>
    ensures { Makes (work stages.Conditions (values_of (tokens_of text.now))) result }
{
    let mut values = Vec::new(alloc);
    for token in Tokens::new(text) {
        match value_of(token) {
            Some(value) => values.push(value).map_err(|_| Stage::Conditions.missing())?,
            None => return Err(USAGE),
        }
    }
    Ok(Image::new(values))
}

/// An image: a value for each word of a layout, in order. The values are separated by blanks, and each is
/// 1 to 20 decimal digits, below 2^64.
///
/// # Errors
///
/// Usage; out of memory, which is reported as that of a condition.
#[tactic(auto, unfolding(commands::specs::Works::Makes))]
pub fn values_in(alloc: Global, layout: &Layout, text: &[u8]) -> Result<Image, Fault>
    ensures { Makes (values_work layout.now text.now) result }
{
    if text.contains(&HASH) {
        return Err(USAGE);
    }
    let image = image_of(alloc, text)?;
    if image.values().len() != word_count(layout) {
        return Err(USAGE);
    }
    Ok(image)
}

/// The same of a text on the command line.
///
/// # Errors
///
/// As of [`values_in`].
pub(crate) fn read_values(alloc: Global, layout: &Layout, text: &str) -> Result<Image, Fault>
    ensures { Makes (values_work layout.now text.now) result }
{
    values_in(alloc, layout, text.as_bytes())
}

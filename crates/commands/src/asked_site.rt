//! Sites of programs, as the command line names them.
ghost use Rattle.std.specs.Prelude.{◌≡◌};
ghost use Rattle.text_tokens.specs.Cursors.{Reads};
ghost use Rattle.text_tokens.specs.Text.{tokens_of};
ghost use Rattle.commands.specs.AskedSites.{number_at, processor_at, program_at, site_at, site_named};

use text_tokens::cursor::{expect_end, next_token};
use text_tokens::{Tokens, small_number};

/// A place in a program of a processor, of which a command is asked. The program may have none there.
#[derive(Clone, Copy, Debug, PartialEq, Eq)]
pub struct AskedSite {
    /// The number of the processor.
    pub processor: u32,
    /// Whether it is in the recovery program, and not in the main one.
    pub recovery: bool,
    /// The place in that program.
    pub place: u32,
}

/// A text that names no site.
#[derive(Clone, Copy, Debug, PartialEq, Eq)]
pub(crate) struct NoSite;

/// The number that is next.
#[tactic(auto, unfolding(crate::specs::AskedSites::number_at))]
fn next_number(tokens: &mut Tokens) -> Result<u32, NoSite>
    ensures { Reads number_at tokens.old result tokens.new }
{
    let token = next_token(tokens, NoSite)?;
    small_number(token).ok_or(NoSite)
}

/// P, behind `cpu` if that is there.
#[tactic(auto, unfolding(crate::specs::AskedSites::processor_at))]
fn next_processor(tokens: &mut Tokens) -> Result<u32, NoSite>
    ensures { Reads processor_at tokens.old result tokens.new }
{
    let first = next_token(tokens, NoSite)?;
    if first == b"cpu".as_slice() {
        return next_number(tokens);
    }
    small_number(first).ok_or(NoSite)
}

/// `main` or `recover`: whether it is the recovery program.
#[tactic(auto, unfolding(crate::specs::AskedSites::program_at))]
fn next_program(tokens: &mut Tokens) -> Result<bool, NoSite>
    ensures { Reads program_at tokens.old result tokens.new }
{
    let word = next_token(tokens, NoSite)?;
    if word == b"main".as_slice() {
        Ok(false)
    } else if word == b"recover".as_slice() {
        Ok(true)
    } else {
        Err(NoSite)
    }
}

/// The site that the tokens of a line name.
#[tactic(auto, unfolding(crate::specs::AskedSites::site_at))]
fn site_on(line: &[u8]) -> Result<AskedSite, NoSite>
    ensures { result ≡ site_at (tokens_of line.now) }
{
    let mut tokens = Tokens::new(line);
    let processor = next_processor(&mut tokens)?;
    let recovery = next_program(&mut tokens)?;
    let place = next_number(&mut tokens)?;
    expect_end(&mut tokens, NoSite)?;
    Ok(AskedSite {
        processor,
        recovery,
        place,
    })
}

/// The site that a text names, as the report of `fences` does: `cpu P main PLACE` or `cpu P recover PLACE`, with `cpu` or
/// without. None where the text is something else.
pub fn site_named(text: &str) -> Option<AskedSite>
    ensures { result ≡ site_named text.now }
{
    site_on(text.as_bytes()).ok()
}

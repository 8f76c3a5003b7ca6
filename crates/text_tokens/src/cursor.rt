//! The tokens of a line, read from left to right. Who reads says which fault it is where another
//! token is there than was asked for, or none.
ghost use Rattle.std.specs.Prelude.{◌≡◌, Ok, Err, MatchResult};
ghost use Rattle.text_tokens.specs.Cursors.{Reads, end_at, expected_at, token_at, unread};

use crate::token::Tokens;

/// The next token; `fault` where there is none.
#[tactic(auto, unfolding(crate::specs::Cursors::token_at))]
pub fn next_token<'a, E: Copy>(tokens: &mut Tokens<'a>, fault: E) -> Result<&'a [u8], E>
    ensures { MatchResult result
        (λ token. token_at fault (unread tokens.old) ≡ Ok (token.now, unread tokens.new))
        (λ error. token_at fault (unread tokens.old) ≡ Err error) }
{
    tokens.next().ok_or(fault)
}

/// Takes this token; `fault` where another is next, or none.
#[tactic(auto, unfolding(crate::specs::Cursors::expected_at))]
pub fn expect_token<E: Copy>(tokens: &mut Tokens, wanted: &[u8], fault: E) -> Result<(), E>
    ensures { Reads (expected_at fault wanted.now) tokens.old result tokens.new }
{
    if next_token(tokens, fault)? == wanted {
        Ok(())
    } else {
        Err(fault)
    }
}

/// The end of the line; `fault` where there is one more token.
#[tactic(auto, unfolding(crate::specs::Cursors::end_at))]
pub fn expect_end<E: Copy>(tokens: &mut Tokens, fault: E) -> Result<(), E>
    ensures { Reads (end_at fault) tokens.old result tokens.new }
{
    match tokens.next() {
        None => Ok(()),
        Some(_) => Err(fault),
    }
}

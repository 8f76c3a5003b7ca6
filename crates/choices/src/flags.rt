//! Whether each thing is taken.
ghost use Rattle.std.specs.Prelude.{◌≡◌, ◌<◌, length, IfOk};
ghost use Rattle.choices.specs.Choices.{is_within, nothing, with_one};

use std::alloc::{AllocError, Global};

/// None of so many things is taken. The only error is out of memory.
pub fn nothing(alloc: Global, count: usize) -> Result<Vec<bool>, AllocError>
    ensures { IfOk result (λ choice. choice.items ≡ nothing count) }
{
    vec![in alloc; false; count]
}

/// The same choice, with one more that is taken. The only error is out of memory.
pub(crate) fn with_one(
    alloc: Global,
    choice: &[bool],
    place: usize,
) -> Result<Vec<bool>, AllocError>
    requires { place < length choice.now }
    ensures { IfOk result (λ more. more.items ≡ with_one place choice.now) }
{
    let mut more = choice.to_vec(alloc)?;
    more[place] = true;
    Ok(more)
}

/// Whether all that one choice takes, another takes too.
pub fn is_within(less: &[bool], more: &[bool]) -> bool
    requires { length less.now ≡ length more.now }
    ensures { result ≡ is_within less.now more.now }
{
    for place in 0..less.len() {
        if less[place] && !more[place] {
            return false;
        }
    }
    true
}

//! Memories whose images were looked at: a state with one of them has the same images.
ghost use Rattle.std.specs.Prelude.{◌≡◌, [], OnOk, nat_eq};
ghost use Rattle.std.specs.List.{list_any};
ghost use Rattle.std.specs.Cmp.Lexicographic.{pointwise};
ghost use Rattle.explore.specs.Sets.{included};

use crate::key::Key;
use crate::keys::Keys;
use std::alloc::{AllocError, Global};
use std::marker::Model;

/// The keys of memories whose images were looked at.
#[derive(Drop)]
pub(crate) struct Looked {
    keys: Keys,
}

impl Model for Looked {
    ghost use Rattle.std.specs.Prelude.{List, ℕ};

    ghost Value = { List (List ℕ) };

    ghost view = { λ l. l.keys };
}

impl Looked {
    /// None yet.
    pub(crate) fn new(alloc: Global) -> Looked
        ensures { result ≡ [] }
    {
        Looked {
            keys: Keys::new(alloc),
        }
    }

    /// Whether a memory of this key is among them.
    pub(crate) fn has(&self, key: &Key) -> bool
        ensures { result ≡ list_any (pointwise nat_eq key.now) self.now }
    {
        self.keys.has(key.bytes())
    }

    /// Adds a key, unless it is there, which is told.
    pub(crate) fn add(&mut self, alloc: Global, key: &Key, known: bool) -> Result<(), AllocError>
        requires { known ≡ list_any (pointwise nat_eq key.now) self.old }
        ensures { OnOk result (self.new ≡ included self.old key.now) }
    {
        if known {
            return Ok(());
        }
        self.keys.push(alloc, key.bytes())
    }
}

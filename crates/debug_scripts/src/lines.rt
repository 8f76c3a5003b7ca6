//! Lines, as a form of the reports of scripts.
ghost use Rattle.std.specs.Prelude.{◌≡◌, string_bytes};
ghost use Rattle.std.specs.List.{flat_map};
ghost use Rattle.debug_scripts.specs.Replies.{told_text};

use crate::reply::{Form, Reply};
use crate::session_text::push_reply;
use debugger::Past;
use lines_layout::Layout;
use std::alloc::{AllocError, Global};

/// Replies in lines.
#[derive(Drop)]
pub(crate) struct Lines<'a> {
    /// It names the words.
    pub layout: &'a Layout,
}

impl<'a> Form<String> for Lines<'a> {
    ghost names = { λ form. form.layout.now };

    ghost Tells = { λ form text told. string_bytes text ≡ flat_map (told_text form.layout.now) told };

    fn put(
        &self,
        alloc: Global,
        page: &mut String,
        reply: &Reply<'_>,
        past: &Past,
    ) -> Result<(), AllocError> {
        push_reply(alloc, page, self.layout, reply, past)
    }
}

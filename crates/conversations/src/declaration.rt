//! The lines that declared stops, watches and breaks.
ghost use Rattle.std.specs.Prelude.{◌≡◌, ◌++◌, ◌∷◌, [], IfOk, OnOk, string_bytes};
ghost use Rattle.std.specs.List.{flat_map};
ghost use Rattle.conversations.specs.Desks.{ascii, declaration, declared_after, declared_line, info_text, is_kind, is_other, stays, without, without_all};

use crate::moment::Moment;
use debug_scripts::{Command, before_comment};
use std::alloc::{AllocError, Global};
use std::marker::Model;
use text_tokens::skip_blanks;

/// What a line declares.
#[derive(Clone, Copy)]
pub(crate) enum Kind {
    /// A stop.
    Stop,
    /// A watch.
    Watch,
    /// A break.
    Break,
}

/// A stop that is armed, a watch that is attached, or a break: its id, and the line that declared it.
#[derive(Drop)]
pub(crate) struct Declaration {
    kind: Kind,
    id: u32,
    halts: Option<Moment>,
    text: String,
}

impl Model for Declaration {
    ghost use Rattle.std.specs.Prelude.{string_bytes};
    ghost use Rattle.conversations.specs.Desks as desks;

    ghost Value = { desks.Declaration };

    ghost view = { λ d. record { kind = d.kind; id = d.id; halts = d.halts; text = string_bytes d.text } };
}

/// Appends a byte, if it is of ASCII.
fn push_byte(text: &mut String, byte: u8) -> Result<(), AllocError>
    ensures { OnOk result (string_bytes text.new ≡ string_bytes text.old ++ ascii byte) }
{
    if byte >= 0x80 {
        return Ok(());
    }
    text.push(byte as char)
}

/// Appends the bytes of ASCII among these.
pub(crate) fn push_bytes(text: &mut String, bytes: &[u8]) -> Result<(), AllocError>
    ensures { OnOk result (string_bytes text.new ≡ string_bytes text.old ++ flat_map ascii bytes.now) }
{
    for byte in bytes {
        push_byte(text, *byte)?;
    }
    Ok(())
}

/// Whether two declare alike.
fn is_kind(one: Kind, other: Kind) -> bool
    ensures { result ≡ is_kind one other }
{
    match (one, other) {
        (Kind::Stop, Kind::Stop) => true,
        (Kind::Watch, Kind::Watch) => true,
        (Kind::Break, Kind::Break) => true,
        _ => false,
    }
}

impl Declaration {
    /// What a line declares under an id, and where it halts steps, if it does.
    fn of(
        alloc: Global,
        kind: Kind,
        id: u32,
        halts: Option<Moment>,
        line: &[u8],
    ) -> Result<Declaration, AllocError>
        ensures { IfOk result (λ d. d ≡ declaration kind id halts line.now) }
    {
        let mut text = String::new(alloc);
        push_bytes(&mut text, skip_blanks(before_comment(line)))?;
        Ok(Declaration {
            kind,
            id,
            halts,
            text,
        })
    }

    /// Its id.
    pub(crate) fn id(&self) -> u32
        ensures { result ≡ self.now.id }
    {
        self.id
    }

    /// Where it halts steps, if it does.
    pub(crate) fn halts(&self) -> Option<Moment>
        ensures { result ≡ self.now.halts }
    {
        self.halts
    }

    /// Whether it stays where that of a kind and an id is taken out.
    fn stays(&self, kind: Kind, id: u32) -> bool
        ensures { result ≡ stays kind id self.now }
    {
        !(self.id == id && is_kind(kind, self.kind))
    }

    /// Whether it stays where all of an id are taken out.
    fn is_other(&self, id: u32) -> bool
        ensures { result ≡ is_other id self.now }
    {
        self.id != id
    }
}

/// Appends what a line declares.
pub(crate) fn declare(
    alloc: Global,
    declared: &mut Vec<Declaration>,
    kind: Kind,
    id: u32,
    halts: Option<Moment>,
    line: &[u8],
) -> Result<(), AllocError>
    ensures { OnOk result (declared.new.items ≡ declared.old.items ++ declaration kind id halts line.now ∷ []) }
{
    let one = Declaration::of(alloc, kind, id, halts, line)?;
    declared.push(one)?;
    Ok(())
}

/// Drops that of a kind and an id.
fn forget(declared: &mut Vec<Declaration>, kind: Kind, id: u32)
    ensures { declared.new.items ≡ without kind id declared.old.items }
{
    declared.retain(move |one| one.stays(kind, id));
}

/// Drops all of an id.
pub(crate) fn forget_all(declared: &mut Vec<Declaration>, id: u32)
    ensures { declared.new.items ≡ without_all id declared.old.items }
{
    declared.retain(move |one| one.is_other(id));
}

/// Drops what a command of a script takes out.
pub(crate) fn forget_by(declared: &mut Vec<Declaration>, command: &Command)
    ensures { declared.new.items ≡ declared_after command.now declared.old.items }
{
    match command {
        Command::Disarm(id) => forget(declared, Kind::Stop, *id),
        Command::Detach(id) => forget(declared, Kind::Watch, *id),
        _ => {}
    }
}

/// Appends the line that declared one.
fn push_line(text: &mut String, one: &Declaration) -> Result<(), AllocError>
    ensures { OnOk result (string_bytes text.new ≡ string_bytes text.old ++ declared_line one.now) }
{
    text.push_str(&one.text)?;
    text.push('\n')
}

/// Appends the lines that declared stops, watches and breaks.
pub(crate) fn push_info(text: &mut String, declared: &[Declaration]) -> Result<(), AllocError>
    ensures { OnOk result (string_bytes text.new ≡ string_bytes text.old ++ info_text declared.now) }
{
    for one in declared {
        push_line(text, one)?;
    }
    Ok(())
}

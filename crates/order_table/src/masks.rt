//! The operations of one processor that wait, as masks of their places.
ghost use Rattle.std.specs.Prelude.{◌≡◌, ◌<◌, ◌≤◌, [], ◌∷◌, ◌++◌, length, remove, map, IfSome};
ghost use Rattle.order_table.specs.Operations.{IsLine, holder_of};
ghost use Rattle.order_table.specs.Places.{number_of, without_place, HasLine, HasKept, AreInUse};

use crate::Kind;
use std::marker::Model;

/// One bit a place: bit `i` stands for place `i`.
pub type Mask = u128;

/// How many places there are: as many as a [`Mask`] has bits.
pub const PLACES: usize = Mask::BITS as usize;

/// How many cache lines there are.
pub const LINES: usize = 64;

/// How many kinds there are.
const KINDS: usize = 7;

/// The operations of one processor that have not taken effect yet, in program order: of each its
/// kind, and the line that it names.
///
/// Each kind has its mask, and each line has its mask, one bit a place: that of the places whose
/// operation is of the kind, or names the line. The two joined say the kind and the line of a
/// place: bit `i` of `kinds[kind] & lines[line]` is set exactly when the operation at place `i` is
/// of that kind and names that line.
///
/// `in_use` has one bit a line. A line whose bit is not set there has no place, so that only the
/// masks of the others move when an operation is taken out.
#[derive(Drop)]
pub struct Masks {
    kinds: [Mask; KINDS],
    lines: [Mask; LINES],
    in_use: u64,
    len: usize,
}

impl Model for Masks {
    ghost use Rattle.std.specs.Prelude.{List, ℕ, ◌≤◌};
    ghost use Rattle.order_table.specs.Operations.{Operation};

    ghost Value = { List Operation };

    ghost use Rattle.order_table.specs.Places.{operations_in, AreMasks, AreInUse};
    ghost use Rattle.order_table.specs.declared.masks.TheConstants.{PLACES};

    ghost view = { λ m. operations_in m.kinds m.lines m.len };

    ghost invariant = { λ m. AreMasks (operations_in m.kinds m.lines m.len) m.kinds m.lines × (m.len ≤ PLACES) × AreInUse m.in_use m.lines };
}

impl Masks {
    /// No operations.
    pub fn new() -> Masks
        ensures { result ≡ [] }
    {
        Masks {
            kinds: [0; KINDS],
            lines: [0; LINES],
            in_use: 0,
            len: 0,
        }
    }

    /// Appends an operation.
    pub fn push(&mut self, kind: Kind, line: Option<u32>)
        requires room { length self.old < PLACES }
        requires line { IsLine line }
        ensures { self.new ≡ self.old ++ (kind, line) ∷ [] }
    {
        let place: Mask = 1 << self.len;
        self.kinds[number(kind)] |= place;
        if let Some(line) = line {
            self.lines[line as usize] |= place;
            self.in_use |= 1 << line;
        }
        self.len += 1;
    }

    /// Takes out the operation at a place. The others keep their order.
    pub fn take(&mut self, place: usize)
        requires { place < length self.old }
        ensures { self.new ≡ remove self.old place }
    {
        take_place(&mut self.kinds, place);
        self.in_use = take_place_in_use(&mut self.lines, self.in_use, place);
        self.len -= 1;
    }

    /// The same operations again.
    pub fn copy(&self) -> Masks
        ensures { result ≡ self.now }
    {
        Masks {
            kinds: self.kinds,
            lines: self.lines,
            in_use: self.in_use,
            len: self.len,
        }
    }
}

/// The number of a kind among the kinds.
fn number(kind: Kind) -> usize
    ensures value { result ≡ number_of kind }
    ensures bound { result < KINDS }
{
    match kind {
        Kind::Read => 0,
        Kind::Write => 1,
        Kind::Rmw => 2,
        Kind::Mfence => 3,
        Kind::Sfence => 4,
        Kind::FlushOpt => 5,
        Kind::Flush => 6,
    }
}

/// Takes a place out of each mask.
fn take_place(masks: &mut [Mask], place: usize)
    requires { place < PLACES }
    ensures { masks.new ≡ map (without_place place) masks.old }
{
    for mask in masks {
        *mask = without_place(*mask, place);
    }
}

/// Takes a place out of the mask of each line in use, and returns the lines that are in use then.
fn take_place_in_use(lines: &mut [Mask; LINES], in_use: u64, place: usize) -> u64
    requires place { place < PLACES }
    requires in_use { AreInUse in_use lines.old }
    ensures masks { lines.new ≡ map (without_place place) lines.old }
    ensures in_use { AreInUse result lines.new }
{
    let mut still_in_use = in_use;
    let mut left = in_use;
    while left != 0 {
        let line = left.trailing_zeros() as usize;
        let mask = without_place(lines[line], place);
        lines[line] = mask;
        if mask == 0 {
            still_in_use &= !(1 << line);
        }
        left &= !(1 << line);
    }
    still_in_use
}

/// The mask without a place: the places after it move down by one.
fn without_place(mask: Mask, place: usize) -> Mask
    requires { place < PLACES }
    ensures { result ≡ without_place place mask }
{
    let before: Mask = (1 << place) - 1;
    mask & before | mask >> 1 & !before
}

/// The oldest operation before this place after which an operation of this kind and line must take
/// effect: its place.
pub fn holder(masks: &Masks, place: usize, kind: Kind, line: Option<u32>) -> Option<usize>
    requires place { place ≤ length masks.now }
    requires line { IsLine line }
    ensures value { result ≡ holder_of masks.now place (kind, line) }
    ensures earlier { IfSome result (λ holder. holder < place) }
{
    let on_line = places_on(&masks.lines, line);
    let first = kept_places(&masks.kinds, on_line, kind).trailing_zeros() as usize;
    if first < place { Some(first) } else { None }
}

/// The places of the operations that name this line.
fn places_on(lines: &[Mask; LINES], line: Option<u32>) -> Mask
    requires { IsLine line }
    ensures { HasLine result lines.now line }
{
    match line {
        Some(line) => lines[line as usize],
        None => 0,
    }
}

/// The places of the operations after which one of this kind must take effect, of which `on_line`
/// has those on its line.
fn kept_places(kinds: &[Mask; KINDS], on_line: Mask, kind: Kind) -> Mask
    ensures { HasKept result kinds.now on_line kind }
{
    let [reads, writes, rmws, mfences, sfences, flush_opts, flushes] = *kinds;
    let always = reads | rmws | mfences;
    match kind {
        Kind::Read => always,
        Kind::Write => always | sfences | writes | flushes,
        Kind::Rmw | Kind::Mfence | Kind::Sfence => always | sfences | writes | flushes | flush_opts,
        Kind::FlushOpt => always | sfences | (writes | flushes) & on_line,
        Kind::Flush => always | sfences | writes | flushes | flush_opts & on_line,
    }
}

//! Lists of numbers, and sets of them.
ghost use Rattle.std.specs.Prelude.{◌≡◌, ◌<◌, true, ◌↔◌, ◌++◌, [], ℕ, Contains, IfOk, IsTrue, List, OnOk, nat_eq, refl};
ghost use Rattle.std.specs.Ordering.{nat_cmp, as_partial_cmp};
ghost use Rattle.std.specs.Cmp.Lexicographic.{nat_list_eq_equiv, pointwise, slice_cmp};
ghost use Rattle.std.specs.Cmp.{partial_equiv_from_equiv, partial_order_from_own_ties};
ghost use Rattle.std.specs.Cmp.Rules.{comparing};
ghost use Rattle.std.specs.Hash as fed;
ghost use Rattle.std.proofs.Common.{rules};
ghost use Rattle.pending_images.specs.Listings.{in_order};
ghost use Rattle.explore.specs.Ran.{flag_number, site};
ghost use Rattle.explore.specs.SameKeys.{same_hash_input};
ghost use Rattle.explore.specs.Sets.{HasNewMarks, IsMarked, included, list_at, mark_at};

use indexmap::IndexSet;
use std::alloc::{AllocError, Global};
use std::cmp::Ordering;
use std::hash::{Hash, Hasher};
use std::marker::Model;

/// A list of numbers: the outcome of an end, the values of an image, or where an instruction stands. Lists are ordered by the
/// first number in which they differ.
#[derive(Debug, Drop)]
pub struct Numbers {
    values: Vec<u64>,
}

impl Model for Numbers {
    ghost Value = { List ℕ };

    ghost view = { λ n. n.values.items };
}

impl Numbers {
    /// The list of these numbers.
    pub(crate) fn new(values: Vec<u64>) -> Numbers
        ensures { result ≡ values.items }
    {
        Numbers { values }
    }

    /// A list of the same numbers.
    pub(crate) fn copied(alloc: Global, values: &[u64]) -> Result<Numbers, AllocError>
        ensures { IfOk result (λ numbers. numbers ≡ values.now) }
    {
        Ok(Numbers {
            values: Vec::from_slice(alloc, values)?,
        })
    }

    /// The numbers.
    pub fn values(&self) -> &[u64]
        ensures { result.now ≡ self.now }
    {
        &self.values
    }

    /// An instruction: its processor, whether it is of the recovery program, and its place there.
    pub(crate) fn site(
        alloc: Global,
        p: usize,
        recovery: bool,
        place: usize,
    ) -> Result<Numbers, AllocError>
        ensures { IfOk result (λ numbers. numbers ≡ site p recovery place) }
    {
        let values = Vec::from_slice(alloc, &[p as u64, flag(recovery), place as u64])?;
        Ok(Numbers { values })
    }

    /// Makes these the numbers of an instruction: its processor, whether it is of the recovery program, and its place there.
    fn set_site(&mut self, p: usize, recovery: bool, place: usize) -> Result<(), AllocError>
        ensures { OnOk result (self.new ≡ site p recovery place) }
    {
        self.values.clear();
        self.values
            .extend_from_slice(&[p as u64, flag(recovery), place as u64])
    }
}

/// 1 or 0.
pub(crate) fn flag(flag: bool) -> u64
    ensures { result ≡ flag_number flag }
{
    if flag { 1 } else { 0 }
}

impl PartialEq for Numbers {
    ghost eq = { pointwise nat_eq };

    ghost laws = { partial_equiv_from_equiv nat_list_eq_equiv };

    fn eq(&self, other: &Numbers) -> bool {
        self.values == other.values
    }
}

impl Eq for Numbers {
    ghost laws = { nat_list_eq_equiv };
}

impl PartialOrd for Numbers {
    ghost partial_cmp = { as_partial_cmp (slice_cmp nat_cmp) };

    ghost laws = { partial_order_from_own_ties (Prim.search (comparing, rules)) (Prim.search (comparing, rules)) };

    fn partial_cmp(&self, other: &Numbers) -> Option<Ordering> {
        Some(self.cmp(other))
    }
}

impl Ord for Numbers {
    ghost cmp = { slice_cmp nat_cmp };

    ghost total = { Prim.search (comparing, rules) };

    ghost matches_partial_cmp = { λ x y. refl };

    ghost matches_eq = { Prim.search (comparing, rules) };

    fn cmp(&self, other: &Numbers) -> Ordering {
        self.values.cmp(&other.values)
    }
}

impl Hash for Numbers {
    ghost hash_input = { λ n. fed.slice fed.u64 n };

    ghost respects_eq = { same_hash_input };

    fn hash<H: Hasher>(&self, state: &mut H) {
        self.values.hash(state);
    }
}

/// Of so many processors instructions have marks.
const MARKED_PROCESSORS: usize = 16;

/// So many instructions of each of their programs have marks.
const MARKED_PLACES: usize = 4096;

/// A set of lists of numbers, in the order in which they came.
#[derive(Drop)]
pub(crate) struct NumberSet {
    lists: IndexSet<Numbers>,
    /// Room for a list that is looked for.
    room: Numbers,
    /// An instruction that has a mark is there: so most are found at once.
    marks: Vec<bool>,
}

impl Model for NumberSet {
    ghost use Rattle.std.specs.Prelude.{List, ℕ};
    ghost use Rattle.explore.specs.Sets.{AreMarks};

    ghost Value = { List (List ℕ) };

    ghost view = { λ s. s.lists.keys };

    ghost invariant = { λ s. AreMarks s.marks.items s.lists.keys };
}

/// Where the mark of an instruction is.
fn mark_at(p: usize, recovery: bool, place: usize) -> usize
    requires p { p < 16 }
    requires place { place < 4096 }
    ensures { result ≡ mark_at p recovery place }
{
    (place * MARKED_PROCESSORS + p) * 2 + flag(recovery) as usize
}

/// Whether an instruction has a mark.
fn is_marked(marks: &[bool], p: usize, recovery: bool, place: usize) -> bool
    ensures { result ≡ true → IsMarked marks.now p recovery place }
{
    if p >= MARKED_PROCESSORS || place >= MARKED_PLACES {
        return false;
    }
    match marks.get(mark_at(p, recovery, place)) {
        Some(mark) => *mark,
        None => false,
    }
}

/// Marks an instruction, where it may have a mark.
fn mark(marks: &mut Vec<bool>, p: usize, recovery: bool, place: usize) -> Result<(), AllocError>
    ensures { HasNewMarks marks.old.items marks.new.items p recovery place }
{
    if p >= MARKED_PROCESSORS || place >= MARKED_PLACES {
        return Ok(());
    }
    let at = mark_at(p, recovery, place);
    if at >= marks.len() {
        marks.resize(at + 1, false)?;
    }
    marks[at] = true;
    Ok(())
}

impl NumberSet {
    /// Nothing yet.
    pub(crate) fn new(alloc: Global) -> NumberSet
        ensures { result ≡ [] }
    {
        NumberSet {
            lists: IndexSet::new(alloc),
            room: Numbers::new(Vec::new(alloc)),
            marks: Vec::new(alloc),
        }
    }

    /// Adds a list, unless it is there.
    pub(crate) fn add(&mut self, numbers: Numbers) -> Result<(), AllocError>
        ensures { OnOk result (self.new ≡ included self.old numbers) }
    {
        self.lists.insert(numbers)?;
        Ok(())
    }

    /// Adds an instruction, unless it is there: mostly it is, and then that takes no memory.
    pub(crate) fn add_site(
        &mut self,
        alloc: Global,
        p: usize,
        recovery: bool,
        place: usize,
    ) -> Result<(), AllocError>
        ensures { OnOk result (self.new ≡ included self.old (site p recovery place)) }
    {
        if is_marked(&self.marks, p, recovery, place) {
            return Ok(());
        }
        self.room.set_site(p, recovery, place)?;
        if !self.lists.contains(&self.room) {
            let site = Numbers::copied(alloc, self.room.values())?;
            self.lists.insert(site)?;
        }
        mark(&mut self.marks, p, recovery, place)
    }

    /// Appends the list at a place, if there is one.
    fn push_at(&self, alloc: Global, i: usize, lists: &mut Vec<Numbers>) -> Result<(), AllocError>
        ensures { OnOk result (lists.new.items ≡ lists.old.items ++ list_at self.now i) }
    {
        let Some(list) = self.lists.get_index(i) else {
            return Ok(());
        };
        let values = Vec::from_slice(alloc, list.values())?;
        lists.push(Numbers { values })?;
        Ok(())
    }

    /// A copy of the lists, in the order in which they came. The only error is out of memory.
    pub(crate) fn to_vec(&self, alloc: Global) -> Result<Vec<Numbers>, AllocError>
        ensures { IfOk result (λ lists. lists.items ≡ self.now) }
    {
        let mut lists = Vec::new(alloc);
        for i in 0..self.lists.len() {
            self.push_at(alloc, i, &mut lists)?;
        }
        Ok(lists)
    }

    /// The lists in ascending order.
    pub(crate) fn in_order(&self, alloc: Global) -> Result<Vec<Numbers>, AllocError>
        ensures { IfOk result (λ lists. lists.items ≡ in_order self.now) }
    {
        let mut lists = self.to_vec(alloc)?;
        sort(&mut lists);
        Ok(lists)
    }
}

/// Sorts lists, and drops repeats.
pub(crate) fn sort(lists: &mut Vec<Numbers>)
    ensures { lists.new.items ≡ in_order lists.old.items }
{
    lists.sort_unstable();
    lists.dedup();
}

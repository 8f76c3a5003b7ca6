//! Which weaker instructions do in place of flushes and fences that stay.
ghost use Rattle.std.specs.Prelude.{◌≡◌, IfOk, Some, true};
ghost use Rattle.isa.specs.Loadables.{names_its_words};
ghost use Rattle.isa.specs.Objects.{shape};
ghost use Rattle.verdicts.specs.Verdicts.{IsKeptBy};
ghost use Rattle.fence_needs.specs.Changes.{MayStandIn, replaced};
ghost use Rattle.fence_needs.specs.Needs.{AreNeeds};
ghost use Rattle.fence_needs.specs.Sites.{instr_at};
ghost use Rattle.fence_needs.specs.Tried.{AreFound, IsTriedIn};
ghost use Rattle.fence_needs.specs.Weakened.{IsSaid, IsWeakened, kept_if_it_does, weaker_of, weaker_tried};

use crate::change::{replaced, without_all};
use crate::need::{Need, SiteNeed, Weaker, WeakerSaid};
use crate::one_by_one::left_out;
use crate::site_list::instr_at;
use explore::{Question, Verdict};
use image_reasons::Site;
use isa::{Access, FenceKind, FlushKind, Instr, Object};
use std::alloc::{AllocError, Global};
use verdicts::verdict_on;
use workers::Gate;

/// The weaker one of an instruction: a `clwb` of a `clflush`, with its operand, and an `sfence` of an `mfence`.
pub fn weaker_of(instr: Instr) -> Option<Instr>
    ensures { result ≡ weaker_of instr }
{
    match instr {
        Instr::Memory(Access::Flush(FlushKind::Clflush), operand) => {
            Some(Instr::Memory(Access::Flush(FlushKind::Clwb), operand))
        }
        Instr::Fence(FenceKind::Mfence) => Some(Instr::Fence(FenceKind::Sfence)),
        _ => None,
    }
}

/// The one that is tried: none of what is left out.
fn weaker_tried(need: &Need, instr: Instr) -> Option<Instr>
    ensures { result ≡ weaker_tried need.now instr }
{
    match need {
        Need::LeftOut => None,
        _ => weaker_of(instr),
    }
}

/// The program with a weaker instruction in place of that at a site.
fn with_weaker_at(
    alloc: Global,
    program: &Object,
    site: Site,
    instr: &Instr,
) -> Result<Object, AllocError>
    requires { MayStandIn program.now instr.now }
    ensures { IfOk result (λ changed. changed ≡ replaced program.now site instr.now) }
{
    replaced(alloc, program, site, *instr)
}

/// What is said of a program with a weaker instruction.
fn said_of<G: Gate>(
    alloc: Global,
    changed: &Object,
    question: &Question,
    limit: u64,
    gate: &G,
) -> Result<WeakerSaid, AllocError>
    ensures { IfOk result (IsSaid question.now limit changed.now) }
{
    match verdict_on(alloc, changed, question, limit, gate)? {
        Ok(Verdict::Holds(_)) => Ok(WeakerSaid::Does),
        Ok(Verdict::Fails(failure)) => Ok(WeakerSaid::DoesNot(failure)),
        Err(fault) => Ok(WeakerSaid::NotKnown(fault)),
    }
}

/// The weaker instruction in place of that at a site, and what is said of it, all else being as it is. None is tried if `need` is `LeftOut`. So
/// many states are told apart at most; the gate is told of each. The only error is out of memory.
pub fn weaker_at<G: Gate>(
    alloc: Global,
    object: &Object,
    question: &Question,
    limit: u64,
    site: Site,
    need: &Need,
    gate: &G,
) -> Result<Option<Weaker>, AllocError>
    ensures { IfOk result (IsWeakened question.now limit object.now site (weaker_tried need.now (instr_at object.now site))) }
{
    // That the object can be loaded is for the proof.
    let _processors = object.processors();
    let Some(instr) = weaker_tried(need, instr_at(object, site)) else {
        return Ok(None);
    };
    let changed = with_weaker_at(alloc, object, site, &instr)?;
    let said = said_of(alloc, &changed, question, limit, gate)?;
    Ok(Some(Weaker { instr, said }))
}

/// A program has the changed one in its place, if that does.
fn keep_if_it_does(program: &mut Object, changed: Object, said: &WeakerSaid)
    ensures { program.new ≡ kept_if_it_does program.old changed said.now }
{
    if let WeakerSaid::Does = said {
        *program = changed;
    }
}

/// Tries the weaker one of an instruction in a program, where there is one to be tried. The program has it then, if it does.
fn weaker_in<G: Gate>(
    alloc: Global,
    program: &mut Object,
    question: &Question,
    limit: u64,
    one: &SiteNeed,
    gate: &G,
) -> Result<Option<Weaker>, AllocError>
    requires { names_its_words (shape program.old) one.now.instr ≡ true }
    ensures { IfOk result (IsTriedIn question.now limit program.old one.now.site (weaker_tried one.now.need one.now.instr) program.new) }
{
    let Some(instr) = weaker_tried(&one.need, one.instr) else {
        return Ok(None);
    };
    let changed = with_weaker_at(alloc, program, one.site, &instr)?;
    let said = said_of(alloc, &changed, question, limit, gate)?;
    keep_if_it_does(program, changed, &said);
    Ok(Some(Weaker { instr, said }))
}

/// What is said of the weaker ones of all that stay, by what was found of each: one after another is made weaker, if what is asked holds then
/// without all that are left out and with those before it that are weaker.
pub(crate) fn with_weaker<G: Gate>(
    alloc: Global,
    object: &Object,
    question: &Question,
    limit: u64,
    found: Vec<SiteNeed>,
    gate: &G,
) -> Result<Vec<SiteNeed>, AllocError>
    requires { AreFound question.now limit object.now found.items }
    ensures { IfOk result (λ needs. IsKeptBy question.now object.now → AreNeeds question.now limit object.now needs.items) }
{
    // That the object can be loaded is for the proof.
    let _processors = object.processors();
    let spare = left_out(alloc, &found)?;
    let mut program = without_all(alloc, object, &spare)?;
    let mut needs = Vec::with_capacity(alloc, found.len())?;
    for one in found {
        let weaker = weaker_in(alloc, &mut program, question, limit, &one, gate)?;
        let SiteNeed {
            site,
            instr,
            need,
            ..
        } = one;
        needs.push(SiteNeed {
            site,
            instr,
            need,
            weaker,
        })?;
    }
    Ok(needs)
}

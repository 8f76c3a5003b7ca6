//! Gathering what the states that are visited give.
ghost use Rattle.std.specs.Prelude.{◌≡◌, IfOk, OnOk};
ghost use Rattle.explore.specs.Gathered.{if_asked, none_gathered, run_at, runs_at, with_images};
ghost use Rattle.explore.specs.Sets.{included_all};

use crate::looked::Looked;
use crate::numbers::{NumberSet, Numbers};
use images::Image;
use machine::{Machine, Step};
use std::alloc::{AllocError, Global};

/// What the states that were visited give.
#[derive(Drop)]
pub(crate) struct Gathered {
    /// The outcomes of ends before a crash.
    pub ends: NumberSet,
    /// The outcomes of ends after a crash.
    pub recovered: NumberSet,
    /// The images, where they are asked for.
    pub images: NumberSet,
    /// The instructions that run.
    pub ran: NumberSet,
    /// The memories whose images were looked at.
    pub looked: Looked,
}

impl Gathered {
    /// Nothing yet.
    pub(crate) fn new(alloc: Global) -> Gathered
        ensures { result ≡ none_gathered }
    {
        Gathered {
            ends: NumberSet::new(alloc),
            recovered: NumberSet::new(alloc),
            images: NumberSet::new(alloc),
            ran: NumberSet::new(alloc),
            looked: Looked::new(alloc),
        }
    }
}

/// Adds the instruction that processor p, if there is one, executes next, if it may now.
pub(crate) fn note_run(
    alloc: Global,
    here: &Machine,
    p: u32,
    ran: &mut NumberSet,
) -> Result<(), AllocError>
    ensures { OnOk result (ran.new ≡ included_all ran.old (run_at here.now p)) }
{
    let view = here.view();
    let at = p as usize;
    let (Some(recovery), Some(place)) = (view.recovering(at), view.place(at)) else {
        return Ok(());
    };
    if here.check(Step::Exec(p)).is_none() {
        ran.add_site(alloc, at, recovery, place)?;
    }
    Ok(())
}

/// Adds the instructions that processors execute next, of those that may now.
pub(crate) fn note_runs(
    alloc: Global,
    here: &Machine,
    ran: &mut NumberSet,
) -> Result<(), AllocError>
    ensures { OnOk result (ran.new ≡ included_all ran.old (runs_at here.now)) }
{
    for p in 0..here.view().cpus() {
        note_run(alloc, here, p as u32, ran)?;
    }
    Ok(())
}

/// Adds images.
fn add_images(alloc: Global, images: &[Image], set: &mut NumberSet) -> Result<(), AllocError>
    ensures { OnOk result (set.new ≡ included_all set.old images.now) }
{
    for image in images {
        set.add(Numbers::copied(alloc, image.values())?)?;
    }
    Ok(())
}

/// Adds the images of a state, where they are asked for.
pub(crate) fn note_images(
    alloc: Global,
    asked: bool,
    images: &[Image],
    gathered: &mut Gathered,
) -> Result<(), AllocError>
    ensures { OnOk result (gathered.new ≡ with_images gathered.old (if_asked asked images.now)) }
{
    if asked {
        add_images(alloc, images, &mut gathered.images)?;
    }
    Ok(())
}

//! A machine that is built in code, and every memory that a crash may leave of it.
ghost use Rattle.std.specs.Prelude.{IfOk};
ghost use Rattle.px86_machine.specs.Images.{IsListing};
ghost use Rattle.px86_machine.specs.Machine.{opening, run_of};

use anyhow::{Result, bail};
use px86_machine::{
    Access, Image, Immediate, Instr, Layout, Machine, MemoryOperand, Object, Program, Programs,
    Source, Step, WordId, WordValues, images,
};
use std::alloc::Global;

/// `mov [word], 1`.
fn store_one(word: WordId) -> Instr {
    let one = Source::Number(Immediate::of_bits(1));
    Instr::Memory(Access::Store(one), MemoryOperand::Word(word))
}

/// Two words, each on a cache line of its own, and a processor that stores 1 to both. It flushes neither.
fn two_stores(alloc: Global) -> Result<Object> {
    let layout = Layout::new(alloc, &[&[b"data"], &[b"flag"]])?;
    let (Some(data), Some(flag)) = (layout.word(b"data"), layout.word(b"flag")) else {
        bail!("a name is missing");
    };
    let code = vec![in alloc; store_one(data), store_one(flag)]?;
    let Ok(main) = Program::new(code) else {
        bail!("these instructions are no program");
    };
    let recovery = Program::empty(alloc);
    let processors = vec![in alloc; Programs { main, recovery }]?;
    match Object::new(layout, WordValues::zeroed(alloc)?, processors) {
        Ok(object) => Ok(object),
        Err(_) => bail!("these parts are no object"),
    }
}

/// Every memory that a crash may leave after these steps of the object's machine, ascending and each once. Steps from the
/// first on that is refused are not made.
pub fn images_after(alloc: Global, object: &Object, steps: &[Step]) -> Result<Vec<Image>>
    ensures { IfOk result (λ images. IsListing (run_of steps.now (opening object.now)).state images.items) }
{
    let mut machine = Machine::load(alloc, object)?;
    machine.run(steps);
    let Some(countable) = images::count(&machine.view()) else {
        bail!("there are too many images");
    };
    Ok(images::list(alloc, &countable)?)
}

/// Prints what a crash may leave of the two words once both stores have left the store buffer.
pub fn show(rt: &impl Print, alloc: Global) -> Result<()> {
    let [exec, drain] = [Step::Exec(0), Step::Drain(0, 0)];
    let object = two_stores(alloc)?;
    let images = images_after(alloc, &object, &[exec, exec, drain, drain]);
    drop(object);
    for image in images? {
        println!(rt; "a crash may leave {:?}", image.values())?;
    }
    Ok(())
}

//! Programs that use the emulator as a library, each a module, which are run one after another. docs/LIBRARY.md shows their
//! texts, and `stdout` beside this folder has what they print. Of the repository they use `px86_machine` alone.
#![tactic(auto)]

mod crash_images;
mod flagged_word;
mod shared_machine;

fn main(rt: HostRuntime) -> anyhow::Result<()> {
    crash_images::show(&rt, rt.alloc())?;
    flagged_word::show(&rt, rt.alloc())?;
    shared_machine::show(&rt, rt.alloc())
}

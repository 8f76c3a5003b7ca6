//! Which steps a machine accepts, by kinds: one look at the whole state, where [`Machine::check`] asks of
//! one step.
ghost use Rattle.std.specs.Prelude.{◌≡◌, ◌<◌};
ghost use Rattle.lines_layout.specs.Lines.{max_lines};
ghost use Rattle.machine.specs.Accepted.{IsNextMask, drainable_of, persistable_of, runnable_of};

use crate::machine::Machine;
use store_buffer::Mask;

/// The mask of processors or of lines, with the bit of a number where the number passes.
fn with_number(mask: u64, number: usize, passes: bool) -> u64
    requires { number < max_lines }
    ensures { IsNextMask mask number passes result }
{
    if passes { mask | 1 << number } else { mask }
}

impl Machine {
    /// The processors whose Exec is accepted, one bit a processor.
    pub fn runnable(&self) -> u64
        ensures { result ≡ runnable_of self.now }
    {
        let mut mask = 0;
        if self.turn_left().is_err() {
            return mask;
        }
        let cpus = self.cpus();
        for p in 0..cpus.len() {
            let passes = cpus[p].check_exec(self.pending()).is_ok();
            mask = with_number(mask, p, passes);
        }
        mask
    }

    /// The places of processor p's store buffer whose Drain is accepted, one bit a place; none where
    /// there is no such processor.
    pub fn drainable(&self, p: usize) -> Mask
        ensures { result ≡ drainable_of self.now p }
    {
        let Some(cpu) = self.cpus().get(p) else {
            return 0;
        };
        if self.turn_left().is_ok() {
            cpu.drainable(self.pending())
        } else {
            0
        }
    }

    /// The lines whose Persist is accepted, one bit a line.
    pub fn persistable(&self) -> u64
        ensures { result ≡ persistable_of self.now }
    {
        let mut mask = 0;
        if self.turn_left().is_err() {
            return mask;
        }
        for line in 0..self.shape().line_count() {
            let passes = self.pending().check_persist(line as u32).is_ok();
            mask = with_number(mask, line, passes);
        }
        mask
    }
}

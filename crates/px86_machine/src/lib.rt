//! The door for programs that use the emulator as a library: all that they take, by one `use`. docs/LIBRARY.md says how,
//! with three programs, and what is proved of each call.
//!
//! A program's row in `crates.txt` needs no other crate of the repository: `mine: px86_machine`. Its clauses name the model
//! by `specs/` of this crate (`Rattle.px86_machine.specs.Machine`, `Images`, ..), in which the words of the crates below are
//! passed on. There is no code here, and no definition: each item is documented and proved in the crate that it comes from.
//!
//! What is listed here keeps its name and its meaning; of the crates `images`, `explore` and `hunt`, which are passed on whole,
//! what docs/LIBRARY.md lists. A change of either is a change of this crate's promise, and docs/LIBRARY.md says so. What only the crates below have may change without a word.
#![tactic(auto)]

// Programs: in code, as texts, as object files.
pub use isa::{
    Access, Computation, FenceKind, FlushKind, Immediate, Instr, JumpKind, LockedOperation,
    MAX_INSTRUCTIONS, MAX_PROCESSORS, MemoryOperand, Object, Program, Programs, Reg, Source,
};
pub use lines_layout::{
    LINE_WORDS, Layout, LayoutFault, LineId, MAX_LINES, Shape, WordId, WordValues,
};
pub use litmus_text::{LineFault, TextFault, read_litmus, write_litmus};
pub use loader::{ObjectFault, ProgramRole, read_object, write_object};
pub use outcomes::{OrNoMemory, Refusing};

// The machine and its steps.
pub use machine::{Act, Entry, MAX_TURNS, Machine, Pair, PendingEntry, Refusal, Seen, Step, View};
pub use schedule::{
    MAX_SCHEDULES, Plan, Range, StepsFault, Turns, first_steps, plan_steps, read_steps, run_plan,
    write_steps,
};

// Crash images, by `images::list` and its neighbors, and conditions on them.
pub use images;
pub use images::{
    Comparison, Cond, CondFault, Count, Countable, Image, ImageFault, MOST_CANDIDATES, Operand,
    Term, TokenFault, all_images, holds, read_cond, some_image,
};

// Every run, by `explore::check`.
pub use explore;
pub use explore::{Asked, ExploreFault, Failure, Findings, Numbers, Path, Question, Verdict};

// The verdict on a program from its first state, and what its flushes and fences are needed for.
pub use fence_needs::{
    MOST_CHOICES, Need, SiteNeed, Weaker, WeakerSaid, fences_of, is_least, need_of, needs,
    no_more_can_go, replaced, weaker_at, weaker_of, without,
};
pub use image_reasons::Site;
pub use verdicts::verdict_on;

// The flushes and fences that a program lacks: the least set with which what is asked holds.
pub use candidates::{candidates, cost, with_all};
pub use image_reasons::{Repair, Side};
pub use mends::{MOST_OPEN, Mended, Open, Put, mend};

// Which of the writes that are missing where a run crashed are enough alone.
pub use causes::{MOST_TRIED, Told, told_behind, told_in_image};
pub use image_reasons::{Missing, Why};

// Many schedules, by threads; what is known of their searches is in `hunt::laws`.
pub use hunt;
pub use hunt::{
    Breach, EndCounts, HuntFault, Loss, Losses, Moment, NoThread, Outcome, Search, Tally, WordPair,
    count_ends, count_losses, hunt as hunt_ends, hunt_crashes, hunt_ended, loss_of, tally,
};
pub use workers::{Gate, MAX_SEATS, OpenGate};

// One machine for many threads.
pub use live::{
    Answer, Call, CloseFault, CloseRefusal, Closed, JournalEntry, Live, Naming, Receipt, Seat,
};

// Sessions that stop, watch and go back.
pub use debugger::{Attached, Halt, Note, Session, SessionFault, Stop, Test, Watcher, WordWatch};

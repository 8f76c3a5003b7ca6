//! Laws above the definitions, in the words of the rules. Each is the contract of a function that
//! does nothing.
ghost use Rattle.std.specs.Prelude.{◌≡◌, ◌≢◌, ℕ, ◌<◌, true, false, Ok, Err, Some, None, [], List, length};
ghost use Rattle.lines_layout.specs.Lines.{word_at};
ghost use Rattle.isa.specs.declared.instr.Instr.TheVariants.{Fence};
ghost use Rattle.isa.specs.declared.instr.FenceKind.TheVariants.{Mfence};
ghost use Rattle.isa.specs.declared.instr.LockedOperation.TheVariants.{ExchangeAdd, CompareExchange};
ghost use Rattle.isa.specs.declared.register.Reg.TheVariants.{Rax};
ghost use Rattle.isa.specs.Registers.{reg, word_sum};
ghost use Rattle.order_table.specs.declared.Kind.TheVariants as kinds;
ghost use Rattle.store_buffer.specs.declared.entry.Entry.{Entry};
ghost use Rattle.store_buffer.specs.Buffers.{is_buffered, kind_of};
ghost use Rattle.store_buffer.specs.Splits.{NewestWrite};
ghost use Rattle.persist_buffer.specs.Memories.{coherent};
ghost use Rattle.persist_buffer.specs.Splits.{IsPersist, IsSettle};
ghost use Rattle.processor.specs.declared.act.Act.TheVariants.{Read, Delay, Trap};
ghost use Rattle.processor.specs.declared.refusal.Refusal.TheVariants.{Halted, BufferNotEmpty};
ghost use Rattle.processor.specs.Contents.{Contents, seen_value};
ghost use Rattle.processor.specs.Cpus.{trapped_at};
ghost use Rattle.processor.specs.Accesses.{is_locked};
ghost use Rattle.processor.specs.Executions.{exec_of};
ghost use Rattle.processor.specs.Acts.{IsShown};
ghost use Rattle.processor.specs.Instructions.{IsRunOf};
ghost use Rattle.processor.specs.Operations.{operation_of};
ghost use Rattle.processor.specs.EveryRun.{Everywhere, EveryExec, EveryRun, RunsWhere, EveryShowing, EveryRefused, EveryAccess, EveryLocked, EveryWritten, RefusedWhere, AfterEveryEntry, HasKind, HasNoNext, IsForetold, IsNext, IsPlacedIn, IsWaiting, SeesTheSame};

/// What an instruction shows is what it did to store buffer and memory, and nothing else was done
/// to them.
pub fn acts_show_all()
    ensures { EveryExec (λ program c s act d t. IsShown act s t) }
{}

/// An instruction runs exactly when it is ready and there is room for what it leaves; otherwise the
/// refusal is the same.
pub fn room_decides()
    ensures { Everywhere IsForetold }
{}

/// Where an instruction waits for an empty store buffer, the table keeps every entry before it, and
/// where it reads past the store buffer, none. The locked operations and mfence wait, and no others.
/// What an instruction delays is an entry of its own kind, and one that reads alone is a read.
pub fn waiting_is_the_tables()
    ensures locked { AfterEveryEntry kinds.Rmw true }
    ensures fence { AfterEveryEntry kinds.Mfence true }
    ensures read { AfterEveryEntry kinds.Read false }
    ensures delay_of { (entry : Entry) → EveryShowing (Delay entry) (HasKind (kind_of entry)) }
    ensures who_waits { EveryRefused BufferNotEmpty (λ instr s. IsWaiting instr × (s.buffer ≢ [])) }
    ensures who_passes { EveryRun (λ instr c s act d t. s.buffer ≢ [] → d.trap ≡ None
        → (operation_of instr ≢ Some kinds.Rmw) × (operation_of instr ≢ Some kinds.Mfence)) }
    ensures who_reads { (word seen : ℕ) → EveryShowing (Read word seen) (HasKind kinds.Read) }
{}

/// A processor sees its own newest buffered write of a word, after which none of the word is
/// buffered, and the coherent value where it has buffered none.
pub fn newest_write_is_read()
    ensures buffered { (s : Contents) (word value : ℕ) (before later : List Entry)
        → NewestWrite s.buffer word value before later → seen_value s word ≡ value }
    ensures coherent { (s : Contents) (word : ℕ) → is_buffered word s.buffer ≡ false
        → seen_value s word ≡ coherent s.memory word }
{}

/// Neither persisting nor settling changes what a processor sees of any word.
pub fn persisting_shows_nowhere()
    ensures persist_seen { (line : ℕ) (s t : Contents) (word value : ℕ)
        → IsPersist line s.memory t.memory word value → word < length s.memory.persisted
        → t.buffer ≡ s.buffer → SeesTheSame s t }
    ensures settle_seen { (line : ℕ) (s t : Contents) → IsSettle line s.memory t.memory
        → t.buffer ≡ s.buffer → SeesTheSame s t }
{}

/// An instruction does and shows exactly what the relation by cases says of it. Where its address is
/// no word's it traps, whatever is buffered. A locked operation finds nothing buffered, reads the
/// coherent value, and what it writes is the newest pending write at once.
pub fn instructions_run_as_told()
    ensures only { EveryRun IsRunOf }
    ensures always { RunsWhere IsRunOf }
    ensures halted { RefusedWhere Halted HasNoNext }
    ensures traps { EveryAccess (λ program c s access address. word_at s.shape address ≡ None
        → exec_of program c s ≡ Ok (Trap address, (trapped_at c address, s))) }
    ensures waits { EveryAccess (λ program c s access address. (word : ℕ)
        → word_at s.shape address ≡ Some word → is_locked access ≡ true → s.buffer ≢ []
        → exec_of program c s ≡ Err BufferNotEmpty) }
    ensures fence_waits { Everywhere (λ program c s. IsNext (Fence Mfence) program c
        → s.buffer ≢ [] → exec_of program c s ≡ Err BufferNotEmpty) }
{}

/// An instruction of a program leaves the processor at a place of the program, or at its end.
pub fn places_stay_within()
    ensures { EveryExec (λ program c s act d t. IsPlacedIn program d) }
{}

/// What a locked operation writes is the coherent value at once. A comparison that fails writes nothing.
/// A sum that is 0 modulo 2^64 is written as 0 and sets ZF.
pub fn locked_operations_act_at_once()
    ensures written { EveryWritten (λ s t word value. coherent t.memory word ≡ value) }
    ensures failing_compare { EveryLocked CompareExchange (λ r word c s d t.
        reg c.regs Rax ≢ coherent s.memory word → t ≡ s) }
    ensures sums { EveryLocked ExchangeAdd (λ r word c s d t.
        word_sum (coherent s.memory word) (reg c.regs r) ≡ 0
        → (coherent t.memory word ≡ 0) × (d.regs.zero ≡ true)) }
{}

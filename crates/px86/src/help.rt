//! What is under the help of each command.

/// What is under the help of `run`.
pub(crate) const STEPS: &str = "\
The steps have a line each:
  exec P         processor P runs its next instruction
  drain P I      entry I of its store buffer leaves it, from 0, oldest first
  persist LINE   the oldest pending write of a cache line is persisted
  settle         the oldest pending marker of a flush leaves
  crash          what was not persisted is lost, and recovery begins

An operand in brackets is the name of a word, or a register that holds its address. At an
address that is no word's the processor traps: it stays there until a crash.

Examples:
  printf 'exec 0\\ndrain 0 0\\ncrash\\n' | px86 run write-behind-flush.litmus
  px86 run --steps write-behind-flush.steps write-behind-flush.litmus";

/// What is under the help of `trace`.
pub(crate) const TRACES: &str = "\
The steps are those of `px86 run`. The report has a line for each, with its place in the list:
  I exec P: INSTRUCTION: what it did, as `read x 7`, or `delay W x 1` of a store that is buffered
  I STEP: what it did, as `left 0 1 W x 1`, `persisted x 1`, `settled 0`, `crashed 1`
A step that is refused ends it, and its line has the refusal.

Examples:
  px86 trace --steps write-behind-flush.steps write-behind-flush.litmus
  px86 trace --json --states --steps write-behind-flush.steps write-behind-flush.litmus";

/// What is under the help of `next`.
pub(crate) const NEXT_STEPS: &str = "\
The steps are those of `px86 run`. The report has a line for each step that the machine then accepts,
and then for `crash`, as `px86 trace` has one, without its place:
  exec P: INSTRUCTION: what it would do
  STEP: what it would do
With --refused the steps that name what is there and are refused have a line too:
  STEP: why it is refused, as `M7 Held 0`
The status is 1 where nothing is left to do but to crash.

Examples:
  px86 next --no-steps write-behind-flush.litmus
  printf 'exec 0\\nexec 0\\n' | px86 next --refused write-behind-flush.litmus";

/// What is under the help of `asm`.
pub(crate) const OBJECTS: &str = "\
An object keeps the names of the words. One of version 1 has none: its words are w0 and on.

Example:
  px86 asm lock.litmus > lock.obj";

/// What is under the help of `dis`.
pub(crate) const TEXTS: &str = "\
Words keep their names. Those of an object of version 1 have none, and are w0 and on.

Example, the written form of a text:
  px86 dis lock.litmus
Example, what an object says:
  px86 asm lock.litmus | px86 dis /dev/stdin";

/// What is under the help of `images`.
pub(crate) const CONDITIONS: &str = "\
A condition compares words and registers with numbers, and joins such tests:
  persisted NAME   what the image has of a word
  coherent NAME    what a processor without buffered writes would read of a word
  reg P R          a register of processor P
  = != < <= > >=   with a number; not, and, or, and brackets
Of a sheet it is written as one of its questions, and may name these, and each `let` and constant.

With --set nothing is listed, and --count, --names, --all and --some may not be given with it. It takes
a value for each word, in the order of the program. The report is `set I ..`, the places of the
pending entries that leave these values, as few as can be, or `no set`.

With --explain-image the image of `all fails`, or of --set, has below the report each write that is
missing in it, and why it may be, as `px86 hunt` has them.

Examples:
  px86 images --all 'persisted flag = 0 or persisted data = 1' commit.litmus < steps
  px86 images --count --some 'persisted x = 2 and not reg 0 rax = 0' copy.litmus < steps
  px86 images --set '1 0' commit.litmus < steps";

/// What is under the help of `law`.
pub(crate) const ORDER: &str = "\
The steps are those of `px86 run`. Here `mfence` and the locked operations do not wait for the store
buffer, and an entry leaves it although an earlier one holds it; any other refusal ends the run.
The report is `broken P FIRST SECOND AT`: of processor P the operation of step SECOND took effect,
by step AT, before that of step FIRST, which it may not pass. It is `none` where no pair is broken.
Steps are counted from 0.

Example:
  printf 'exec 0\\nexec 0\\ndrain 0 1\\n' | px86 law write-behind-flush.litmus";

/// What is under the help of `replay`.
pub(crate) const REPLAYS: &str = "\
Schedules are those of `px86 tally` and `px86 hunt`: --number says which, from 0. Where its number
comes from a hunt or a tally, give the same --seed, --length, --crash-after and --lazy. Where --length
was left out, a number by --all, --ends or --recovered is given here with --length 1000. The report is
its steps, one a line, to be made after those that were given. Whether they break anything is not asked.

Example, with no steps before the schedule:
  px86 replay --number 48 --seed 1 --crash-after 6 --no-steps queue.litmus | px86 run queue.litmus";

/// What is under the help of `check`.
pub(crate) const CHECKS: &str = "\
With --all, --ends, --recovered or --images this is asked; conditions are those of `px86 images`. Without
one the questions of FILE are, a sheet: `every crash NAME: CONDITION` and so on. No steps are then read
but those of --steps FILE. The report has a line for each question, in order:
  NAME holds         it is so in every state that is asked about
  NAME fails W=V ..  not in this one: each word with its value, and &WORD for the address of a word
  NAME found W=V ..  `some`: it is so in this one; or `NAME none`, in none
  NAME asked of no state, or with --before-crash, of recovery, NAME not asked
With --show or --explain-image the run of `fails` and `found` is below the line, as of a condition that
fails. The status is 0 where each answer is `holds`, `found` or `not asked`, and 1 otherwise. Where the
program has no questions, the report is `nothing asked`, and the status is 1. Of several FILEs each has
one line: `FILE: N hold`, so many that are asked, or FILE and the first that is not so. Its fault names
FILE, and the next is asked. The status is the greatest.

A run is any list of accepted steps after those that were given, with any number of crashes. An end is a
state in which no step but a crash is accepted. Where the steps that were given have crashed, every end
is one after a crash. All runs are explored.

Where each question holds, the report says so, and then what was explored:
  all holds, ends holds, recovered holds
  states N           how many states were told apart
  ends N             how many different ends there are before the first crash
  recovered ends N   how many different ends there are after a crash
  never ran cpu P main PLACE INSTRUCTION, or recover in place of main: no run executes it
  image V ..         with --images: each memory that a crash may leave in some state that a run reaches
  images N           how many there are
A question of no state is `asked of no state`, and the status is 1. Where one fails, the status is 1, and
the report is of one run that breaks it:
  all fails V ..     the image; for `ends` and `recovered` the values of the words at the end
  steps K            how many steps lead there; with --show they are below, to be made by `px86 run`
With --as-steps the report is these steps alone, to be piped, or nothing where each question holds.
With --explain-image the run has below it what each of its crashes left, and of --all at last the image.
Of the writes that are missing there come those that are enough alone: had one persisted too, COND would
be true, or all runs from that crash would keep what is asked. If none was found to be, all of them come:
  crash I            a crash: its place among the steps, from 0
  image NAME V ..    the value of each word
  missing NAME V line N: WHY   the store of V on line N of the text (of an object its place), and why
  with this: held    or `with each of these: held`: what is above is enough alone
  missing too N      how many others are missing; `missing none` where no write is
Which flushes and fences are to be put in, so that the condition holds, `px86 mend` says.

Where this cannot be told, nothing is reported, and the status is 5:
  R1 TooManyStates   more than N states: fewer records, --before-crash, a higher N, or `px86 hunt`
  R2 NoRoom          in some run a processor waits for room in the pending list (M8, M9)
  I1 TooMany         images are looked at, and a run reaches a state with over 65,536 candidates
                     (with --before-crash and without --images, the lines alone count that COND asks)

Examples, with no steps before the runs:
  px86 check transfer.litmus
  px86 check *.litmus
  px86 check --all restorable --images --no-steps transfer.litmus
  px86 check --all 'persisted flag = 0 or persisted item = 7' --no-steps queue.litmus
  px86 check --ends 'reg 0 rax = 1 or reg 1 rax = 1' --before-crash --show --no-steps \\
    store-buffering.litmus
  px86 check --all 'persisted flag = 0 or persisted item = 7' --explain-image --no-steps queue.litmus
  px86 check --images --no-steps queue.litmus";

/// What is under the help of `outcomes`.
pub(crate) const OUTCOMES: &str = "\
Runs and ends are those of `px86 check`. The report has a line for each different end before the first
crash, or with --recovered after a crash, in ascending order:
  outcome P:REGISTER=VALUE .. NAME=VALUE ..   registers that are not 0, and then each word
  outcomes N                                  how many there are
A trapped processor has `P:trap=ADDRESS`. At an end all is persisted.

R1 TooManyStates, R2 NoRoom and I1 TooMany are as for `px86 check`: nothing is reported then.

Example, with no steps before the runs:
  px86 outcomes --no-steps store-buffering.litmus";

/// What is under the help of `debug`.
pub(crate) const SCRIPTS: &str = "\
A script first declares stops and watches, and then has a command a line:
  stop ID CONDITION   halts a go after the first step at which the condition holds
  watch ID NAME       notes each step that hands the memory a write of the word
  exec P, drain P I, persist LINE, settle, crash   a step, for the next go
  go                  makes these steps
  continue            makes the rest of them after a stop, or after one that was refused, and the steps after it
  back N              goes back before the last N steps
  show                prints the machine's state
  images              lists what a crash may leave
  values NAME [NAME=V ..]   lists the values that a word may then have, where others have these
  disarm ID, detach ID   takes out a stop, or a watch

Example:
  stop 7 coherent x = 1
  watch 3 x
  exec 0
  exec 1
  exec 2
  drain 0 0
  drain 1 0
  go
  show
  crash
  go
With this in the file `script`:
  px86 debug --steps script store-buffering.litmus

With --interactive each line is answered before the next is read. Stops and watches may come at any time. There are also:
  break ID line N     halts steps behind one with which a processor comes to line N of the text; break ID crash where the power fails, break ID trap where a processor traps
  watch ID NAME stop  notes each write of a word, and halts steps behind it, as a break does
  ahead               prints the steps that wait for go or continue, as a list of steps
  step [STEP]         makes this step now, or the first of those that are ahead; the others stay
  run [N]             makes the first step of next, again and again, up to a stop, a break or N steps, at most 1000
  until P PLACE       makes the first step of next, again and again, up to where processor P is at PLACE, a stop, a break or 1000 steps
  finish P            makes exec P now, again and again, up to a stop, a break, a refusal or 1000 steps
  next                prints the steps that may be made now, and what each would do
  K                   makes the step that next has under this number, as step does; the numbers begin at 0
  undo [N]            goes back before the last step, or before the last N, and forgets what was noted of them
  goto N              goes back to the state after the first N steps, as undo does; it never goes forward
  reverse             goes back, as undo does, to the last state behind in which a stop's condition holds, or to the beginning; it knows no breaks
  changed             prints the lines of show that were not there before the last step, those of a processor below its line cpu
  list                prints the program that each processor runs, with > before the place where it is
  print NAME          prints the values of a word; print P:REG the value of a register
  images COND         lists of what a crash may leave what makes COND false
  all COND            says whether COND holds in all that a crash may leave, and if not, where it does not, as images --all does
  set V ..            prints which pending entries leave these values, one for each word, as images --set does
  why V ..            says which writes are missing where a crash leaves these values, and why each may be, as images --set --explain-image does
  check COND          asks COND of all that crashes may leave in all runs from here, as px86 check --all does; a run that fails is ahead then
  crash V ..          the power fails now, and leaves these values, unless a stop or a break comes before; recovery begins
  info                prints the lines that declared the stops, watches and breaks that there are
  delete ID           takes out the stop, the watch and the break of this id, whichever there is
  notes               prints the notes of each watch
  history             prints the steps that led here, as a list of steps
  help [WORD]         prints these lines, or that of a word
  quit                ends; so does the end of the input";

/// What is under the help of `tally`.
pub(crate) const SCHEDULES: &str = "\
Schedule NUMBER draws a word a turn from the generator PCG32 with the seed and the stream NUMBER.
A turn makes one of the steps that the machine accepts, or a crash where --crash-after says so.
Each line of the report is a way to end, in the order of the first schedule that ends so:
  outcome COUNT P:REGISTER=VALUE .. NAME=COHERENT/PERSISTED ..

With --all COND the report is `broken N of K`, how many schedules break the condition by what a
crash may leave after some turn, and `first NUMBER T`, what `px86 hunt --all` finds.
With --ends COND or --recovered COND it is `broken N of K`, how many schedules come to an end that
breaks the condition, `ended N of K`, how many come to one at all, and `first NUMBER`. Ends are those of
`px86 check`. With --all, --ends and --recovered a schedule has 1,000 turns where --length is not given.

Examples, with no steps before the schedules:
  px86 tally --runs 1000 --length 12 --no-steps store-buffering.litmus
  px86 tally --all 'persisted flag = 0 or persisted item = 7' --no-steps queue.litmus";

/// What is under the help of `hunt`.
pub(crate) const HUNTS: &str = "\
One of --all, --cond, --ends and --recovered is given. Schedules are those of `px86 tally`, a condition
is as for `px86 images`, and `none` speaks of the schedules that were run alone.

With --all the condition is asked of every image that a crash may leave, before the first turn and
after each. The report is `none`, or of the first schedule and the least turn of it
  least NUMBER
  turn T
  image V ..         the first image that breaks the condition, or
  candidates more    where there are too many to list
With --cond it is asked of the state at the end of each schedule alone, and of no image: the report
is `least NUMBER` or `none`.
With --ends it is asked where that state is an end, as of `px86 check`: each processor has nothing left
to do, and nothing is pending. Below `none` a line `ended N of K` says how many schedules come to one. If
none does, the report is `ends asked of no state`, and the status 1: give a higher --length.
With --recovered it is asked of ends after a crash, of --crash-after T or of the given steps.
To `px86 replay` give NUMBER with the same --seed, --length, --crash-after and --lazy, and with
--length 1000 where none was given; of --cond with none.

With --lazy no step persists or settles. What such a step leaves could be left before it, so more of the
turns are of the program. But what is pending stays: there are more candidates, and what finds no room
(M8, M9) waits for good. It goes with --all alone, and not with --crash-after.

What --show adds is a list of steps. After the steps that were given they lead to the state
that breaks the condition. With --as-steps the report is these steps alone, to be piped, or
nothing where there is `none`.

With --explain-image an image has below it each write that is missing in it, and why it may be; which of
them is enough alone, `px86 check` says. `px86 mend` says which flushes and fences are to be put in.

Examples, with no steps before the schedules:
  px86 hunt --all 'persisted flag = 0 or persisted item = 7' --explain-image --no-steps queue.litmus
  px86 hunt --cond 'persisted flag = 0 or persisted item = 7' --seed 1 --crash-after 6 \\
    --as-steps --no-steps queue.litmus | px86 run queue.litmus";

/// What is under the help of `fences`.
pub(crate) const FENCES: &str = "\
One of --all, --ends and --recovered is given at least; conditions, runs and ends are those of
`px86 check`, from the program's first state. No steps are read.

Where some run of the program breaks a condition, the report is what `px86 check` says of that run, and
the status is 1: mend the program first. Otherwise each flush and fence is made a `nop` in turn, and all
runs of the program without it are explored. The report says what holds, and of each flush and fence:
  cpu P main PLACE INSTRUCTION: needed                 without it some run breaks a condition
                                not needed, left out   without it, and without all of these together,
                                                       each condition holds
                                not needed, kept       without it alone each holds, but not without
                                                       those before it that are left out, too
                                not known R1           it is not told (R1, R2, I1 as of `px86 check`)
                                .., clwb does          it stays, and a weaker one in its place does:
                                                       `clwb` for `clflush`, `sfence` for `mfence`
                                .., clwb not known R1  it is not told of that one
  keep K of M           so many stay, with which each condition holds, also with all the weaker ones
  .., least             without any larger number of them than are left out some run breaks a condition
  .., no more can go    that is not told, but so it is without those that are left out, and any more
Where no weaker one is named, there is none, or some run with it breaks a condition.
With --only 'cpu P main PLACE' that one is left out and no other, and its line is all of the report:
`needed`, `not needed` or `not known R1`, and what is said of a weaker one, with all else as it is.

What is not needed is not needed for what is asked. A flush behind the last store is needed only where a
condition asks that the store has persisted.

Examples:
  px86 fences --all 'persisted flag = 0 or persisted item = 7' mended-queue.litmus
  px86 fences --all 'persisted flag = 0 or persisted item = 7' --only 'cpu 0 main 1' mended-queue.litmus";

/// What is under the help of `mend`.
pub(crate) const MENDS: &str = "\
One of --all, --ends and --recovered is given at least; conditions, runs and ends are those of
`px86 check`, from the program's first state. No steps are read.

Where each condition holds, the report is `mend none needed`. Otherwise instructions are put in, each
behind an instruction that accesses memory: a clwb or clflush of what that accesses, an sfence or an
mfence. The report is of the first set of any size, in the order of what it costs, with which each
condition holds. Of two that cost the same, the one with fewer instructions is first, and then by place:
  put INSTRUCTION behind line N   one line for each; of an object `behind cpu P main PLACE`
  all held, ends held, recovered held
  states N          how many states were told apart of the program with it
  cost C            a clwb or sfence costs 1, a clflush or mfence 2
  open INSTRUCTION behind line N, ..: R1   a set before it of which it is not told whether they hold
With each other set before it some run breaks a condition. If no set is found, the status is 1, and the
report is `mend none`: with each set some run does, or it is no program. Or it is `mend not known`, with
`open` lines, as some are not told; eight end the search.
With --as-text the report is the mended program alone, without comments and with other labels, or
nothing where nothing is put in.

With --moves one store is moved, where the report would be `mend none`: in the order of the stores behind
each later instruction of its straight stretch, and then before each earlier one, the nearest first. No
jump stands there or leads there, nothing there sets a register that the store reads, and nothing there
but flushes accesses memory by the word of the store, or by a register. The report is of the first move
with which a mend holds: in place of `mend none` a line, and then those above, of the moved program:
  move line N behind line M   or `before`; a place is told as in the program as it is
If none does, `moves COUNT, none helps` is below `mend none`. That the move is the least is not said.

With --workers W up to W sets are tried at once, in threads: the one whose turn it is, and the next that
wait. What comes of one that is not needed is let go, so the report is the same for any W. It is of use
where many sets have to be tried, and of little where the last of them takes most of the time.

A set that is put in is no proof that the program was meant so: a store in the wrong place has another
remedy. Of moves only those of one store are tried. Another place is not; a clflushopt does what a
clwb does.

Examples:
  px86 mend --all 'persisted flag = 0 or persisted item = 7' queue.litmus
  px86 mend --all 'persisted flag = 0 or persisted item = 7' --as-text queue.litmus | \\
    px86 check --all 'persisted flag = 0 or persisted item = 7' --no-steps /dev/stdin";

/// What is under the help of `live`.
pub(crate) const JOURNALS: &str = "\
Step I, from 0, is made by thread I modulo T. The report has a line for each step in the order in
which they were made, with the thread as SEAT, and then the machine's state:
  NUMBER SEAT STEP: what the step did, or why it was refused

Example:
  px86 live --threads 2 --steps two-seats.steps two-seats.litmus";

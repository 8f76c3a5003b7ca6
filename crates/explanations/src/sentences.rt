//! A sentence on each fault, by its number: what was expected, or what to do.
use codec::CodeFault;
use commands::{Device, Fault, Missing, Refused, ScriptFault, Stage, refusal_sentence};
use images::{CondFault, TokenFault};
use lines_layout::LayoutFault;
use litmus_text::{LineFault, TextFault};
use loader::ObjectFault;

/// One sentence on each fault, after its number. No memory is taken.
pub fn sentence(fault: Fault) -> &'static str {
    match fault {
        Fault::Device(Device::Read) =>
            "F1: FILE or STEPS could not be opened or read, or a standard stream that the command needs is closed.",
        Fault::Device(Device::Write) =>
            "F2: the report could not be written to its end: standard output is full, or was closed.",
        Fault::Refused(refused) => refused_sentence(refused),
        Fault::Missing(Missing::At(stage)) => missing_sentence(stage),
        Fault::Missing(Missing::Receipt(_)) =>
            "V2: a receipt of the live machine is not in its journal. This is a fault of px86 itself: please report it.",
    }
}

/// One sentence on each input that is refused.
pub(crate) fn refused_sentence(refused: Refused) -> &'static str {
    match refused {
        Refused::TooLong => "F3: an input has at most 2^26 bytes (64 MiB).",
        Refused::Text(TextFault::At(LineFault::BadWord, _)) =>
            "X1: a word is out of place, missing or extra, or no instruction, register or line has this name.",
        Refused::Text(TextFault::At(LineFault::UnknownName, _)) =>
            "X2: no line before this one gives a word of this name, and no register has it.",
        Refused::Text(TextFault::At(LineFault::BadNumber, _)) =>
            "X3: a number is 1 to 20 decimal digits, or `-` and decimal digits, or `0x` and 1 to 16 hexadecimal digits. `mov R, NUMBER` and `init` take 64 bits; all others take 32 bits with a sign.",
        Refused::Text(TextFault::At(LineFault::BadLabel, _)) =>
            "X4: a label is spelled as a name, and is once in its program. Main and recovery have labels of their own, and a jump leads to one of the same program.",
        Refused::Text(TextFault::At(LineFault::TooLong, _)) =>
            "X5: a text has at most 16 processors, and a program at most 1,024 instructions.",
        Refused::Text(TextFault::At(LineFault::MissingEnd, _)) =>
            "X6: the text ends too soon: it begins with `litmus 1`, and each `cpu` has its `end`.",
        Refused::Text(TextFault::At(LineFault::NotAscii, _)) =>
            "X7: a text has visible ASCII characters, blanks and line feeds, and no other byte, in comments too.",
        Refused::Text(TextFault::At(LineFault::Layout(LayoutFault::TooManyLines), _)) =>
            "X8 L1: a program has at most 64 cache lines.",
        Refused::Text(TextFault::At(LineFault::Layout(LayoutFault::LineTooLong), _)) =>
            "X8 L2: a cache line has at most 8 words: give the others a `line` of their own.",
        Refused::Text(TextFault::At(LineFault::Layout(LayoutFault::DoubleName), _)) =>
            "X8 L3: another word has this name: each word needs a name of its own.",
        Refused::Text(TextFault::At(LineFault::Layout(LayoutFault::BadName), _)) =>
            "X8 L4: a name is a lower case letter and at most 15 of `a-z`, `0-9` and `_`, and no register's name.",
        Refused::Text(TextFault::At(LineFault::BadName, _)) =>
            "X10: a constant is an upper case letter and at most 15 of `A-Z`, `0-9` and `_`, and is given once.",
        Refused::Text(TextFault::At(LineFault::BadCond, _)) =>
            "X11: this token may not be there in a question or a `let`, or it ends too soon: `every PLACE NAME: CONDITION`, `some PLACE NAME: CONDITION`, `let NAME = CONDITION` or `let NAME = VALUE`, and a PLACE is `crash`, `end` or `recovery`. A condition has at most 64 brackets and `not`s open at once.",
        Refused::Object(ObjectFault::BadMagic) =>
            "O1: the eighth byte of an object file is its version, `1` or `2`.",
        Refused::Object(ObjectFault::Short) =>
            "O2: the object file ends too soon: it may have been cut off.",
        Refused::Object(ObjectFault::Trailing) =>
            "O3: an object file ends with the code of its last processor, and more bytes are behind it.",
        Refused::Object(ObjectFault::BadCount) =>
            "O4: an object file has at most 64 cache lines, 8 words a line, and 16 processors (8 in version 1).",
        Refused::Object(ObjectFault::BadCode(_, _, CodeFault::Unknown(_))) =>
            "O5 C1: no instruction begins with the bytes at this offset of the code. Of each instruction one spelling is read: docs/FORMATS.md has them.",
        Refused::Object(ObjectFault::BadCode(_, _, CodeFault::Truncated(_))) =>
            "O5 C2: the code ends within the instruction at this offset.",
        Refused::Object(ObjectFault::BadCode(_, _, CodeFault::BadAddress(_))) =>
            "O5 C3: the instruction at this offset names an address that is no word's.",
        Refused::Object(ObjectFault::BadCode(_, _, CodeFault::BadTarget(_))) =>
            "O5 C4: the jump at this offset leads into the middle of an instruction, or out of the code.",
        Refused::Object(ObjectFault::BadCode(_, _, CodeFault::TooLong)) =>
            "O5 C5: a program has at most 1,024 instructions.",
        Refused::Object(ObjectFault::BadName(_)) =>
            "O7: the name of this word is empty or too long, is misspelled, or is that of a register or of an earlier word.",
        Refused::Steps(_) => "S1: this line is no step.",
        Refused::Script(ScriptFault::BadLine(_)) =>
            "S1: this line is no line of a script, or comes too late: each `stop` and `watch` comes before the first command.",
        Refused::Condition(CondFault::At(TokenFault::BadCond, _))
        | Refused::Script(ScriptFault::Condition(CondFault::At(TokenFault::BadCond, _))) =>
            "E1: this token may not be here, or one is missing. A test is `persisted NAME = NUMBER`, `coherent NAME = NUMBER` or `reg P REG = NUMBER`; tests are joined by `and`, `or`, `not`, `(` and `)`. A condition has at most 1,024 tokens, and 64 brackets and `not`s open at once.",
        Refused::Condition(CondFault::At(TokenFault::UnknownName, _))
        | Refused::Script(ScriptFault::Condition(CondFault::At(TokenFault::UnknownName, _))) =>
            "E2: no word of the program has this name.",
        Refused::Script(ScriptFault::DoubleId) =>
            "G1: an earlier line has this id: each stop needs an id of its own, and so does each watch.",
        Refused::TooManyStates =>
            "R1: more states than `--states` says are told apart: take a case with fewer records, give a higher `--states N`, or ask `tally` or `hunt`, which sample: docs/GUIDE.md, section 6.",
        Refused::NoRoom =>
            "R2: in some run 256 writes of one cache line, or 256 flushes, are pending, and a processor waits for room (M8, M9): check a case with fewer of them, as fences make no room; or ask `hunt`, which samples.",
        Refused::TooManyImages | Refused::TooManyInRun =>
            "I1: there are more than 65,536 candidates. Persist the lines that the question is not about, flush as the structure does, or write fewer lines; or ask `images --count`, `images --set` or `hunt --all`: docs/GUIDE.md, section 4.",
        Refused::TooManySchedules =>
            "K1: the numbers of schedules are below 2^32: ask for fewer by `--first` and `--runs`.",
        Refused::NoFence =>
            "K4: no flush or fence is at this place of the program: `fences` without `--only` reports where each is.",
        Refused::Usage =>
            "usage: `--set` takes one value for each word of the program, in order: unsigned decimal numbers below 2^64, with blanks between them; and `--only` the name of a question of the program.",
        Refused::Step(refusal, _) => refusal_sentence(refusal),
    }
}

/// One sentence on each stage of which something is missing.
fn missing_sentence(stage: Stage) -> &'static str {
    match stage {
        Stage::Text =>
            "X9: out of memory before the program was read, or while it was read or written.",
        Stage::Object => "O6: out of memory while the object file was read or written.",
        Stage::Conditions =>
            "E3: out of memory while the condition was read or copied, or the values of `--set` were read.",
        Stage::Steps => "S2: out of memory while the steps, or the script, were read.",
        Stage::Machine => "M15: out of memory for the machine or its report.",
        Stage::Images => "I2: out of memory for the images or their report.",
        Stage::Exploration =>
            "R3: out of memory for the states that are told apart, or their report: give a lower `--states N`, or free some memory.",
        Stage::Session => "G4: out of memory in the session of the debugger.",
        Stage::Schedules => "K2: out of memory for the schedules or their report.",
        Stage::Threads =>
            "K3: a thread did not start: ask for fewer by `--workers` or `--threads`, or free some memory.",
        Stage::Journal => "V1: out of memory for the live machine or its report.",
    }
}

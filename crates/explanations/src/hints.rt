//! What is said of a fault in place of the sentence on all faults of its number, where more is known of the token or the
//! bytes that have it: the first row whose tests hold. Nothing is said by no bytes. In a hint, `{}` is the operand.
use crate::spots::Test::{
    After, At, Begins, BeginsNoName, BeginsNumber, Behind, Ends, First, Given, Has,
    HasAlphanumeric, HasOtherThanAscii, HasOtherThanName, HasUppercase, In, InTest, Is, IsLong,
    IsOneOf, Lacks, Name, Number, OfOneRegister, ProgramBegins, Register, SameAsFirst, Second,
    TakesBracket, WordOfLayout,
};
use crate::spots::{Spot, Test};
use line_forms::Stage;

/// What has to be true, and what is said then.
type Row = (&'static [Test], &'static str);

/// Rows, and what has to be true for all of them.
type Rows = (&'static [Test], &'static [Row]);

/// The stages of a program of a processor.
const PROGRAMS: [Stage; 2] = [Stage::Main, Stage::Recovery];

/// Where one program of a processor has ended or the other is read.
const AFTER_MAIN: [Stage; 2] = [Stage::Recovery, Stage::Between];

/// Words that begin the steps of a list.
const STEP_WORDS: [&str; 5] = ["exec", "drain", "persist", "settle", "crash"];

/// Words that begin the texts of herd7, by the machine that they are of.
const HERD_WORDS: [&str; 8] = [
    "X86_64", "X86", "AArch64", "ARM", "PPC", "RISCV", "LISA", "C",
];

/// Words that begin lines of scripts, and of no list of steps.
const SCRIPT_WORDS: [&str; 10] = [
    "stop", "watch", "go", "continue", "back", "show", "images", "values", "disarm", "detach",
];

/// Words that begin lines of a report of `hunt`, before its steps.
const REPORT_WORDS: [&str; 5] = ["least", "turn", "image", "candidates", "none"];

/// Instructions that are not there with `lock`.
const NOT_LOCKED: [&str; 8] = ["add", "sub", "inc", "dec", "and", "or", "xor", "bts"];

/// What is said of an address of a word.
const ADDRESSES_ARE: &str =
    "an address is written as a number: 4096 + 64 * LINE + 8 * PLACE, both from 0.";

/// What is said of an instruction that is locked, but is none of those that may be.
const LOCKED_ARE: &str = "load the word into a register first, or use `lock xadd [x], rcx`.";

/// What is said of `lock xadd`.
const XADD_IS: &str = "`lock xadd` adds a register to a word.";

/// What is said where a word and a register are the other way round.
const WORD_FIRST: &str = "the word comes first, and then the register.";

/// What is said of a token by its place.
const PLACES: [Row; 17] = [
    (
        &[At(0), In(&[Stage::Opening]), IsOneOf(&STEP_WORDS)],
        "this is a list of steps: FILE is the program, and steps come from standard input or by `--steps STEPS`.",
    ),
    (
        &[At(0), In(&[Stage::Opening]), IsOneOf(&HERD_WORDS)],
        "this is a text of herd7, and px86 has a language of its own: its first line is `litmus 1`.",
    ),
    (
        &[At(0), In(&PROGRAMS), Is("cpu")],
        "each `cpu` has its own `end`: write it before this line.",
    ),
    (
        &[At(0), In(&AFTER_MAIN), Is("recover")],
        "`recover` is before the `end` of its `cpu`, once.",
    ),
    (&[First("lock"), At(1), IsOneOf(&NOT_LOCKED)], LOCKED_ARE),
    (
        &[First("lock"), At(1), Is("xchg")],
        "leave `lock` out: `xchg` is locked without it.",
    ),
    (
        &[In(&PROGRAMS), At(2), Second(":")],
        "a label has a line of its own.",
    ),
    (
        &[First("cpu"), At(1)],
        "processors count by their order: write `cpu` alone.",
    ),
    (
        &[First("cmp"), At(3), Register],
        "two registers cannot be compared: `lock cmpxchg` compares `rax` with a word.",
    ),
    (&[First("add"), At(3), Register], XADD_IS),
    (&[First("xchg"), At(1), Register], WORD_FIRST),
    (&[First("lock"), At(2), Register], WORD_FIRST),
    (
        &[First("mov"), At(5), Is("[")],
        "load the word into a register first.",
    ),
    (
        &[First("cmp"), At(1), Is("[")],
        "load the word into a register first.",
    ),
    (
        &[First("cmp"), At(3), Is("[")],
        "a register is compared with a number: `lock cmpxchg` compares `rax` with a word.",
    ),
    (&[First("add"), At(1), Is("[")], LOCKED_ARE),
    (&[First("add"), At(3), Is("[")], XADD_IS),
];

/// What is said of a token that begins as a comment of another language.
const COMMENTS: [Row; 1] = [(&[Begins(&[";", "//"])], "a comment begins with `#`.")];

/// What is said of a token that ends as a statement or a call of another language.
const ENDINGS: [Row; 3] = [
    (&[Ends("();")], "write it without `();`."),
    (&[Ends("()")], "write it without `()`."),
    (&[Ends(";")], "no `;` ends a line; comments begin with `#`."),
];

/// What is said of an equals sign on a line `init`.
const INIT: [Row; 2] = [
    (&[Is("=")], "leave `=` out."),
    (&[Has("=")], "put a blank in place of `=`."),
];

/// What is said of the name of a word, or of a register, that has no brackets.
const BARE: [Row; 3] = [
    (
        &[First("mov"), After(1), Given(true)],
        "the word is `[{}]`; its address is written as a number: 4096 + 64 * LINE + 8 * PLACE, both from 0.",
    ),
    (
        &[Register],
        "an address in a register has brackets: `[{}]`.",
    ),
    (&[Name], "a word in memory has brackets: `[{}]`."),
];

/// What is said of an instruction that leaves zero in a register.
const ZERO: [Row; 1] = [(
    &[At(0), IsOneOf(&["xor", "sub"]), OfOneRegister, Given(false)],
    "write `mov {}, 0`.",
)];

/// What is said of instructions and words of other assemblers.
const WORDS: [Row; 16] = [
    (&[Is("je")], "write `jz`."),
    (&[Is("jne")], "write `jnz`."),
    (
        &[IsOneOf(&["jl", "jle", "jg", "jge", "jb", "jbe", "ja", "jae"])],
        "jumps are `jmp`, `jz` and `jnz`.",
    ),
    (&[Is("sub")], "add a negative number: `add rax, -1`."),
    (&[Is("dec")], "write `add` and `-1`: `add rax, -1`."),
    (&[Is("inc")], "write `add` and `1`: `add rax, 1`."),
    (&[Is("test")], "write `cmp rax, 0`."),
    (&[Is("xadd")], "write `lock` before it."),
    (&[Is("cmpxchg")], "write `lock` before it."),
    (&[Is("lfence")], "fences are `mfence` and `sfence`."),
    (&[Is("pause")], "leave it out."),
    (
        &[IsOneOf(&["call", "ret", "push", "pop"])],
        "there are no calls and no stack: write the body where it is called.",
    ),
    (
        &[Is("hlt")],
        "a program ends at its last line: jump to a label there.",
    ),
    (&[Is("movq")], "write `mov`: each access is of 8 bytes."),
    (
        &[IsOneOf(&["qword", "dword", "byte"])],
        "leave it out: each access is of 8 bytes.",
    ),
    (&[IsOneOf(&["lea", "offset"])], ADDRESSES_ARE),
];

/// What is said of registers that are not there.
const REGISTERS: [Row; 9] = [
    (&[Is("eax")], "registers have 64 bits: write `rax`."),
    (&[Is("ecx")], "registers have 64 bits: write `rcx`."),
    (&[Is("edx")], "registers have 64 bits: write `rdx`."),
    (&[Is("ebx")], "registers have 64 bits: write `rbx`."),
    (&[Is("esi")], "registers have 64 bits: write `rsi`."),
    (&[Is("edi")], "registers have 64 bits: write `rdi`."),
    (&[Is("r8d")], "registers have 64 bits: write `r8`."),
    (&[Is("r9d")], "registers have 64 bits: write `r9`."),
    (
        &[IsOneOf(&[
            "rsp", "rbp", "r10", "r11", "r12", "r13", "r14", "r15", "rip",
        ])],
        "registers are rax, rcx, rdx, rbx, rsi, rdi, r8 and r9.",
    ),
];

/// What is said of any word of a first line that is out of place, and of a sign before the name of a word.
const OPENING: [Row; 2] = [
    (
        &[In(&[Stage::Opening])],
        "the first line of a program is `litmus 1`.",
    ),
    (&[Begins(&["&"])], ADDRESSES_ARE),
];

/// What is said of signs and spelling that no program has.
const SPELLING: [Row; 3] = [
    (
        &[Begins(&["%", "$"])],
        "registers and numbers have no sign before them: `rax`, `1`.",
    ),
    (
        &[Has("+*")],
        "an address is a name or a register: `add` to a register first.",
    ),
    (&[HasUppercase], "words are in lower case."),
];

/// What is said of a token that is not the name of a word, but something else.
const OTHERS: [Row; 2] = [
    (
        &[Register],
        "a register is not a word: `init` takes the name of a word.",
    ),
    (
        &[Number(true)],
        "an address is a name or a register: `mov` the number into a register first.",
    ),
];

/// What is said of a number that does not fit, or has an `X`.
const NUMBERS: [Row; 3] = [
    (&[Begins(&["0X"])], "`0x` is in lower case."),
    (
        &[First("mov"), Number(true)],
        "this one does not fit in 32 bits with a sign: `mov` it into a register, and store the register.",
    ),
    (
        &[Number(true)],
        "this one does not fit in 32 bits with a sign.",
    ),
];

/// What is wrong with the spelling of a name.
const NAMES: [Row; 4] = [
    (&[Has(",[]:")], "blanks alone separate names."),
    (&[Register], "a name may not be that of a register."),
    (&[BeginsNoName], "a name begins with a lower case letter."),
    (&[IsLong], "a name has at most 16 characters."),
];

/// The same, of its other bytes.
const NAME_BYTES: [Row; 1] = [(
    &[HasOtherThanName],
    "a name has no characters but `a-z`, `0-9` and `_`.",
)];

/// What is said of a label, on a line that is of a label or a jump.
const LABELS: [Row; 2] = [
    (
        &[Second(":")],
        "an earlier line of this program has this label.",
    ),
    (
        &[],
        "this program has no such label: main and recovery have labels of their own.",
    ),
];

/// What is said of a program that begins as a file of another kind.
const FILES: [Row; 3] = [
    (
        &[ProgramBegins(&[b"\x7FELF"])],
        "this is an ELF file: write a litmus text, or make an object file by `px86 asm`.",
    ),
    (
        &[ProgramBegins(&[b"\xEF\xBB\xBF"])],
        "the file begins with a byte order mark: leave it out.",
    ),
    (
        &[ProgramBegins(&[b"\xFF\xFE", b"\xFE\xFF"])],
        "the file is UTF-16: write it in ASCII.",
    ),
];

/// What is said of a byte that is not ASCII.
const BYTES: [Row; 1] = [(
    &[HasOtherThanAscii],
    "this byte is part of a character that is not ASCII: none may be here, nor in a comment.",
)];

/// What is said of a token that begins a line of a script or of a report, or is a number of another form.
const STEPS: [Row; 3] = [
    (
        &[IsOneOf(&SCRIPT_WORDS)],
        "a script has such a line: `px86 debug` plays it.",
    ),
    (
        &[IsOneOf(&REPORT_WORDS), SameAsFirst],
        "this is the head of a report: with `--as-steps` hunts and checks report the steps alone.",
    ),
    (
        &[Begins(&["0x", "-"])],
        "numbers of steps are decimal, and below 2^32.",
    ),
];

/// What is said of the id of a line that has one already.
const IDS: [Row; 2] = [
    (
        &[First("watch")],
        "an earlier watch has this id: each watch needs an id of its own.",
    ),
    (
        &[],
        "an earlier stop has this id: each stop needs an id of its own.",
    ),
];

/// What is said of words of other notations of conditions.
const SIGNS: [Row; 9] = [
    (
        &[Has("\n")],
        "a condition has no line feed: write a blank in its place.",
    ),
    (&[IsOneOf(&["==", "==="])], "equality is `=`."),
    (&[Is("<>")], "write `!=`."),
    (&[IsOneOf(&["&&", "&", "AND"])], "write `and`."),
    (&[IsOneOf(&["||", "|", "OR"])], "write `or`."),
    (&[Is("->")], "write `not A or B` for `A -> B`."),
    (&[Is("=>")], "write `not A or B` for `A => B`."),
    (&[Is("implies")], "write `not A or B` for `A implies B`."),
    (&[IsOneOf(&["!", "NOT"])], "write `not`."),
];

/// What compares an operand of a condition with a number.
const COMPARISONS: [&str; 6] = ["=", "!=", "<", "<=", ">", ">="];

/// What is said where a condition compares with something else than a number.
const COMPARED_WITH: &str =
    "a test compares with a number, and two words or registers cannot be compared: name the values, as `persisted a = 0 and persisted b = 0 or persisted a = 1 and persisted b = 1`.";

/// What is said of an operand behind a comparison, and of a register that is named without its processor.
const OPERANDS: [Row; 4] = [
    (
        &[
            Behind(&COMPARISONS),
            IsOneOf(&["persisted", "coherent", "reg"]),
        ],
        COMPARED_WITH,
    ),
    (&[Behind(&COMPARISONS), WordOfLayout], COMPARED_WITH),
    (&[Behind(&COMPARISONS), Register], COMPARED_WITH),
    (
        &[Register],
        "a register is one of a processor: write `reg P` before it, as `reg 0 rax`.",
    ),
];

/// What is said of a register behind `reg`.
const UNNUMBERED: [Row; 1] = [(
    &[Behind(&["reg"]), Register],
    "the number of the processor comes first, as `reg 0 rax`.",
)];

/// What is said of a sign and what is together with it, in a test or where one begins.
const GLUED: [Row; 4] = [
    (&[InTest(true), Lacks("<>!")], "put blanks around `=`."),
    (&[InTest(true)], "put blanks around the sign."),
    (
        &[Lacks("<>!")],
        "write `persisted NAME = NUMBER`, with blanks around `=`.",
    ),
    (
        &[],
        "write `persisted` or `coherent` before the name, and put blanks around the sign.",
    ),
];

/// What else is said of a token of a condition.
const ATOMS: [Row; 3] = [
    (&[Has("[]")], "names have no brackets here."),
    (
        &[BeginsNumber, Number(false)],
        "this is no number below 2^64.",
    ),
    (
        &[WordOfLayout],
        "write `persisted` or `coherent` before the name.",
    ),
];

/// What is said of the first line of a sheet, and of addresses in one, which have names.
const SHEETS_WORDS: [Row; 3] = [
    (
        &[In(&[Stage::Opening])],
        "the first line of a sheet is `sheet 1`.",
    ),
    (
        &[IsOneOf(&["lea", "offset"])],
        "an address is written as `&NAME`: `mov rax, &NAME`.",
    ),
    (
        &[First("mov"), After(1), TakesBracket, Given(true)],
        "the word is `[{}]`; its address is its name with `&` before it.",
    ),
];

/// Words that name no item.
const ITEM_WORDS: [&str; 10] = [
    "not",
    "and",
    "or",
    "persisted",
    "coherent",
    "reg",
    "trapped",
    "let",
    "every",
    "some",
];

/// What is said of words of other notations in an item.
const ITEM_SIGNS: [Row; 8] = [
    (&[IsOneOf(&["==", "==="])], "equality is `=`."),
    (&[Is("<>")], "write `!=`."),
    (&[IsOneOf(&["&&", "&", "AND", "/\\"])], "write `and`."),
    (&[IsOneOf(&["||", "|", "OR", "\\/"])], "write `or`."),
    (&[IsOneOf(&["=>", "implies"])], "write `->`."),
    (&[IsOneOf(&["!", "NOT", "~"])], "write `not`."),
    (
        &[Is("->")],
        "one `->` alone stands outside of brackets, or between the same: write `A -> ( B -> C )`.",
    ),
    (
        &[Is("-")],
        "`-` stands between two values, and not between `[` and `]`.",
    ),
];

/// What is said of a token that may not be where it is in an item.
const ITEM_ATOMS: [Row; 4] = [
    (
        &[Is("")],
        "the condition ends too soon: each side of a test has its value, each `and`, `or`, `not` and `->` a condition behind it, and each `(` and `[` its end.",
    ),
    (&[IsOneOf(&[",", ":"])], "no such mark is in a condition."),
    (
        &[Has("=<>"), HasAlphanumeric],
        "put blanks around the sign.",
    ),
    (
        &[Is("trapped")],
        "no condition asks whether a processor has trapped: no item has this name.",
    ),
];

/// What is said of a register in an item.
const ITEM_REGISTERS: [Row; 2] = [
    (
        &[Behind(&["reg"]), Register],
        "the number of the processor comes first, as `reg 0 rax`.",
    ),
    (
        &[Register],
        "a register is one of a processor: write `reg P` before it, as `reg 0 rax`.",
    ),
];

/// What is said of a name in an item that nothing has.
const ITEM_NAMES: [Row; 5] = [
    (
        &[WordOfLayout],
        "a word has two values: write `persisted` or `coherent` before its name.",
    ),
    (
        &[Behind(&["reg"])],
        "the program has no processor of this number: they count from 0.",
    ),
    (
        &[Begins(&["&"])],
        "the address of a word is its name with `&` before it, and no word has this one.",
    ),
    (&[HasUppercase], "no `const` gives this constant."),
    (
        &[Has("=<>"), HasAlphanumeric],
        "put blanks around the sign.",
    ),
];

/// What is said of the name of an item.
const ITEM_NAME: [Row; 1] = [(
    &[IsOneOf(&ITEM_WORDS)],
    "conditions are made of this word, so that no item has it as its name.",
)];

/// What is said of a name that is well spelled.
const DOUBLE_ITEM: [Row; 1] = [(&[Name], "an earlier item has this name.")];

/// Rows of a word of a sheet's program, before those of a litmus text.
pub(crate) static OF_A_SHEETS_WORD: [Rows; 1] = [(&[], &SHEETS_WORDS)];

/// Rows of a token that may not be where it is in an item.
pub(crate) static OF_AN_ITEM: [Rows; 4] = [
    (&[], &ITEM_SIGNS),
    (&[], &REGISTERS),
    (&[], &ITEM_REGISTERS),
    (&[], &ITEM_ATOMS),
];

/// Rows of a name in an item that nothing has.
pub(crate) static OF_AN_ITEMS_NAME: [Rows; 3] = [
    (&[], &ITEM_NAMES),
    (&[], &REGISTERS),
    (&[], &ITEM_REGISTERS),
];

/// Rows of the name of an item.
pub(crate) static OF_AN_ITEM_NAMED: [Rows; 4] = [
    (&[], &ITEM_NAME),
    (&[], &DOUBLE_ITEM),
    (&[], &NAMES),
    (&[], &NAME_BYTES),
];

/// Rows of a word of a program that is out of place or unknown.
pub(crate) const OF_A_WORD: [Rows; 11] = [
    (&[], &PLACES),
    (&[], &COMMENTS),
    (&[], &ENDINGS),
    (&[First("init")], &INIT),
    (&[TakesBracket, Given(true)], &BARE),
    (&[In(&PROGRAMS)], &ZERO),
    (&[In(&PROGRAMS)], &WORDS),
    (&[In(&PROGRAMS)], &REGISTERS),
    (&[TakesBracket], &BARE),
    (&[], &OPENING),
    (&[], &SPELLING),
];

/// Rows of an unknown name. Words of other assemblers may be names, and nothing is said of them.
pub(crate) static OF_AN_UNKNOWN_NAME: [Rows; 4] = [
    (&[First("init")], &INIT),
    (&[], &REGISTERS),
    (&[], &SPELLING),
    (&[], &OTHERS),
];

/// Rows of a number.
pub(crate) static OF_A_NUMBER: [Rows; 2] = [(&[], &NUMBERS), (&[], &ENDINGS)];

/// Rows of a name that is misspelled.
pub(crate) static OF_A_NAME: [Rows; 3] = [(&[], &NAMES), (&[], &ENDINGS), (&[], &NAME_BYTES)];

/// Rows of a label.
pub(crate) static OF_A_LABEL: [Rows; 4] = [
    (&[], &NAMES),
    (&[], &ENDINGS),
    (&[], &NAME_BYTES),
    (&[], &LABELS),
];

/// Rows of bytes that no text may have.
pub(crate) static OF_BYTES: [Rows; 2] = [(&[], &FILES), (&[], &BYTES)];

/// Rows of a token of a list of steps.
pub(crate) static OF_A_STEP: [Rows; 4] = [
    (&[], &STEPS),
    (&[], &COMMENTS),
    (&[], &ENDINGS),
    (&[], &BYTES),
];

/// Rows of the id of a stop or a watch.
pub(crate) static OF_AN_ID: [Rows; 1] = [(&[], &IDS)];

/// Rows of a token of a condition.
pub(crate) static OF_A_CONDITION: [Rows; 6] = [
    (&[], &SIGNS),
    (&[], &REGISTERS),
    (&[], &UNNUMBERED),
    (&[], &OPERANDS),
    (&[Has("=<>"), HasAlphanumeric], &GLUED),
    (&[], &ATOMS),
];

/// Whether all tests hold of a token.
fn meets_all(spot: &Spot<'_>, tests: &[Test]) -> bool {
    tests.iter().all(|test| spot.meets(*test))
}

/// What the first of these rows says whose tests hold.
fn hint_among(rows: &[Row], spot: &Spot<'_>) -> &'static str {
    for (tests, hint) in rows {
        if meets_all(spot, tests) {
            return hint;
        }
    }
    ""
}

/// What the first row of these tables says whose tests hold.
pub(crate) fn hint_of(tables: &[Rows], spot: &Spot<'_>) -> &'static str {
    for (tests, rows) in tables {
        if meets_all(spot, tests) {
            let hint = hint_among(rows, spot);
            if !hint.is_empty() {
                return hint;
            }
        }
    }
    ""
}

//! Sheets: copies, constants and addresses, the lines of instructions in copies, faults, and lines of questions. The texts that are
//! told were worked out by hand.
use litmus_text::{TextLines, write_litmus};
use sheets::{is_sheet, read_sheet, said_by};
use std::alloc::Global;
use std::test::Fail;

/// Two processors that push a node each onto one stack, and one without work.
const SHEET: &str =
    "sheet 1\n# two\nconst ITEM0 5\nconst ITEM1 7\nline top\nline * 2 n$_item n$_next a$[2]\ninit n0_item &top ITEM1\ncpu * 2\nmov rsi, &n$_item\nmov [n$_item], ITEM$\nagain:\nmov rax, [top]\nmov [n$_next], rax\nclwb [n$_item]\nlock cmpxchg [top], rsi\njnz again\nrecover 1\nmov rbx, ITEM$\nend\ncpu\nnop\nend\n";

/// Appends the lines of a processor's main program, and the first of its recovery program.
fn push_lines(alloc: Global, text: &mut String, lines: &TextLines, p: usize) -> Result<(), Fail> {
    for place in 0..9 {
        if let Some(n) = lines.line_at(p, false, place) {
            text.push_str(&format!(in alloc; " {n}")?)?;
        }
    }
    if let Some(n) = lines.line_at(p, true, 0) {
        text.push_str(&format!(in alloc; " r{n}")?)?;
    }
    text.push_str("\n")?;
    Ok(())
}

/// What a sheet says as a litmus text, and the lines of three processors; or its fault.
fn told(alloc: Global, text: &[u8]) -> Result<String, Fail> {
    match read_sheet(alloc, text) {
        Ok(read) => {
            let mut out = write_litmus(alloc, &read.lined.object)?;
            for p in 0..3 {
                push_lines(alloc, &mut out, &read.lined.lines, p)?;
            }
            Ok(out)
        }
        Err(error) => Ok(format!(in alloc; "{error}")?),
    }
}

/// What `SHEET` says, and on which lines.
const TOLD: &str = "litmus 1
line top
line n0_item n0_next a00 a01
line n1_item n1_next a10 a11
init n0_item 4096
init n0_next 7
cpu
mov rsi, 4160
mov [n0_item], 5
l2:
mov rax, [top]
mov [n0_next], rax
clwb [n0_item]
lock cmpxchg [top], rsi
jnz l2
end
cpu
mov rsi, 4224
mov [n1_item], 7
l2:
mov rax, [top]
mov [n1_next], rax
clwb [n1_item]
lock cmpxchg [top], rsi
jnz l2
recover
mov rbx, 7
end
cpu
nop
end
 9 10 12 13 14 15 16
 9 10 12 13 14 15 16 r18
 21
";

#[test]
fn a_sheet_says_a_litmus_text(rt: HostRuntime) -> Result<(), Fail> {
    let out = told(rt.alloc(), SHEET.as_bytes())?;
    assert!(rt; out.as_str() == TOLD);
    assert!(rt; is_sheet(SHEET.as_bytes()) && !is_sheet(TOLD.as_bytes()) && !is_sheet(b"# x"));
    Ok(())
}

/// Whether this is told of a sheet.
fn is_told(alloc: Global, text: &str, wanted: &str) -> Result<bool, Fail> {
    let out = told(alloc, text.as_bytes())?;
    Ok(out.as_str() == wanted)
}

/// Sheets with a fault, and what is told of it.
const FAULTS: [(&str, &str); 19] = [
    (
        "sheet 1\ncpu * 2\nmov rax, A$\nend",
        "X2 UnknownName line 3",
    ),
    (
        "sheet 1\nconst A0 5\ncpu * 2\nmov rax, A$\n\nend",
        "X2 UnknownName line 4",
    ),
    ("sheet 1\nconst A 5\nconst A 6\ncpu", "X10 BadName line 3"),
    (
        "sheet 1\nline x\nline x\nconst a 6\ncpu",
        "X8 L3 DoubleName line 3",
    ),
    ("sheet 1\nline * 65 x$", "X3 BadNumber line 2"),
    ("sheet 1\nline * 64 x$\nline y", "X8 L1 TooManyLines line 3"),
    ("sheet 1\nline x[9]", "X3 BadNumber line 2"),
    ("sheet 1\nline x[8] y", "X8 L2 LineTooLong line 2"),
    ("sheet 1\nline x[8", "X1 BadWord line 2"),
    ("sheet 1\nline x y\ninit x 1 2 3", "X1 BadWord line 3"),
    ("sheet 1\ncpu * 2\nend\ncpu * 15\nend", "X5 TooLong line 4"),
    ("sheet 1\ncpu * 2\njmp a\nend\n", "X4 BadLabel line 3"),
    ("sheet 1\ncpu * 2\n\n", "X6 MissingEnd line 3"),
    ("sheet 1\ncpu * 2\nrecover 2\nend\n", "X3 BadNumber line 3"),
    ("sheet 1\ncpu * 2\nrecover x\nend\n", "X1 BadWord line 3"),
    (
        "sheet 1\ncpu * 2\nrecover 1\nxor\nend\nlet X",
        "X1 BadWord line 4",
    ),
    ("sheet 1\nlet X", "X1 BadWord line 2"),
    ("sheet 1\ncpu\nlet x\nend", "X1 BadWord line 3"),
    ("sheet 1\ncpu\njmp a\nend\nlet X", "X4 BadLabel line 3"),
];

/// Whether each of these faults is told.
fn are_told(alloc: Global, faults: &[(&str, &str)]) -> Result<bool, Fail> {
    for (text, fault) in faults {
        if !is_told(alloc, text, fault)? {
            return Ok(false);
        }
    }
    Ok(true)
}

#[test]
fn faults_are_told_of_lines_of_the_sheet(rt: HostRuntime) -> Result<(), Fail> {
    assert!(rt; are_told(rt.alloc(), &FAULTS)?);
    Ok(())
}

/// A sheet with lines of questions, of which the program says nothing. They need not have a meaning.
const ASKED: &[u8] = b"sheet 1\nconst K 3\nline x\ncpu\nend\n# one\n\tlet a # two\n\nend\xff\ncpu";

#[test]
fn questions_are_kept_as_they_stand(rt: HostRuntime) -> Result<(), Fail> {
    match read_sheet(rt.alloc(), ASKED) {
        Ok(read) => {
            assert!(rt; read.items.first == 7);
            assert!(rt;
                read.items.rows.as_slice() == b"\tlet a # two\n\nend\xff\ncpu\n".as_slice()
            );
            assert!(rt; matches!(read.names.number(b"K"), Ok(3)));
            assert!(rt; matches!(read.names.number(b"&x"), Ok(4096)));
            assert!(rt; read.names.number(b"&y").is_err());
        }
        Err(_) => assert!(rt; false),
    }
    Ok(())
}

/// A sheet that says three lines before a fault of its own, and the line behind this.
const FAULTY: &[u8] = b"sheet 1\nline * 2 x$ # two\nconst a 6\ncpu";

#[test]
fn a_sheet_says_nothing_behind_its_fault(rt: HostRuntime) -> Result<(), Fail> {
    let said = said_by(rt.alloc(), FAULTY)?;
    assert!(rt; said.text.as_slice() == b"litmus 1 \nline x0 \nline x1 \n".as_slice());
    assert!(rt; said.lines.as_slice() == [1, 2, 2].as_slice());
    Ok(())
}

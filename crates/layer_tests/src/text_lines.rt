//! The lines of a litmus text on which its instructions stand.
use litmus_text::{TextLines, read_lined};
use std::alloc::Global;
use std::test::Fail;

/// Blank lines, comments, labels that are spelled as the lines of a processor, a processor without instructions, and no
/// line feed at the end.
const TEXT: &str =
    "# the first line\n\nlitmus 1\nline x y\ninit x 3\ncpu\nend :\nmov [x], 1 # cpu\nrecover:\n\n\
    clflush [x]\nrecover\nnop\n# nop\nmov rax, [x]\nend\ncpu\nend\ncpu\nl0:\njmp l0\nend";

/// Whether these are the lines of a program of a processor, and no more.
fn are(lines: &TextLines, processor: usize, recovery: bool, wanted: &[u64]) -> bool {
    for place in 0..3 {
        if lines.line_at(processor, recovery, place) != wanted.get(place).copied() {
            return false;
        }
    }
    true
}

/// Whether `TEXT` has the lines that were counted by hand.
fn are_as_counted(alloc: Global) -> Result<bool, Fail> {
    let lined = read_lined(alloc, TEXT.as_bytes())?;
    let lines = &lined.lines;
    Ok(
        are(lines, 0, false, &[8, 11])
            && are(lines, 0, true, &[13, 15])
            && are(lines, 1, false, &[])
            && are(lines, 1, true, &[])
            && are(lines, 2, false, &[21])
            && are(lines, 2, true, &[])
            && are(lines, 3, false, &[]),
    )
}

/// Whether a text that is read has no line of an instruction.
fn has_none(alloc: Global, text: &[u8]) -> Result<bool, Fail> {
    let lined = read_lined(alloc, text)?;
    Ok(are(&lined.lines, 0, false, &[]) && are(&lined.lines, 0, true, &[]))
}

#[test]
fn lines_are_those_of_an_editor(rt: HostRuntime) -> Result<(), Fail> {
    assert!(rt; are_as_counted(rt.alloc())?);
    Ok(())
}

/// A text without processors.
#[test]
fn a_text_without_instructions_has_no_lines(rt: HostRuntime) -> Result<(), Fail> {
    assert!(rt; has_none(rt.alloc(), b"litmus 1\n")?);
    Ok(())
}

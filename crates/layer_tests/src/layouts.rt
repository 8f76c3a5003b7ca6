//! Layouts, by those calls of theirs that no command makes.
use lines_layout::{Layout, LayoutFault, Shape, WordId};
use outcomes::OrNoMemory;
use std::alloc::{AllocError, Global};
use std::test::Fail;

/// Whether a layout has this word, with this name, on this line and at this address.
fn has(layout: &Layout, number: usize, name: &str, line: usize, address: u64) -> Option<bool> {
    let word = WordId::new(number)?;
    let found = [layout.word(name.as_bytes())?, layout.word_at(address)?];
    let is_there = found == [word; 2] && layout.addr_of(word)? == address;
    Some(is_there && layout.name(word)? == name && layout.line_of(word)?.number() == line)
}

/// The address of the word of a number, if the layout has it.
fn address(layout: &Layout, number: usize) -> Option<u64> {
    layout.addr_of(WordId::new(number)?)
}

/// The layout of these numbers of words, with the names w0 and on.
fn numbered(alloc: Global, words: &[u8]) -> Result<Layout, Fail> {
    Ok(Layout::numbered(alloc, &Shape::new(words)?)?)
}

/// The layout of these lines.
fn named(alloc: Global, lines: &[&[&[u8]]]) -> Result<Layout, OrNoMemory<LayoutFault>> {
    Layout::new(alloc, lines)
}

/// What these lines are refused for.
fn fault(alloc: Global, lines: &[&[&[u8]]]) -> Option<LayoutFault> {
    match named(alloc, lines).err()? {
        OrNoMemory::Fault(fault) => Some(fault),
        OrNoMemory::NoMemory => None,
    }
}

/// Whether the words of these numbers have no address.
fn have_no_address(layout: &Layout, numbers: &[usize]) -> bool {
    for number in numbers {
        if address(layout, *number).is_some() {
            return false;
        }
    }
    true
}

/// Whether no word is at these addresses.
fn have_no_word(layout: &Layout, addresses: &[u64]) -> bool {
    for address in addresses {
        if layout.word_at(*address).is_some() {
            return false;
        }
    }
    true
}

#[test]
fn words_have_names_lines_and_addresses(rt: HostRuntime) -> Result<(), Fail> {
    let layout = numbered(rt.alloc(), &[1, 2, 0, 8])?;
    let have = [
        has(&layout, 0, "w0", 0, 0x1000),
        has(&layout, 9, "w9", 1, 0x1048),
        has(&layout, 31, "w31", 3, 0x10f8),
    ];
    // No word, no word, and after the last.
    let have_no_address = have_no_address(&layout, &[1, 10, 32, 512]);
    // No word, within a word, before the first and after the last.
    let have_no_word = have_no_word(&layout, &[0x1008, 0x1004, 0xff8, 0x1100, 0x2000]);
    drop(layout);
    assert!(rt; have == [Some(true); 3]);
    assert!(rt; have_no_address && have_no_word);
    Ok(())
}

#[test]
fn the_largest_layout_has_512_words(rt: HostRuntime) -> Result<(), Fail> {
    let layout = numbered(rt.alloc(), &[8; 64])?;
    let has_last = has(&layout, 511, "w511", 63, 0x1ff8);
    drop(layout);
    assert!(rt; has_last == Some(true));
    Ok(())
}

/// Whether a layout has these words x and y on line 0, and z on line 2.
fn has_all(layout: &Layout) -> bool {
    has(layout, 0, "x", 0, 0x1000) == Some(true)
        && has(layout, 1, "y", 0, 0x1008) == Some(true)
        && has(layout, 16, "z", 2, 0x1080) == Some(true)
}

/// Whether a line is added.
fn is_added(layout: &mut Layout, names: &[&[u8]]) -> bool {
    layout.add_line(names).is_ok()
}

/// Whether a layout has those words, and a copy of it too, which stays as it is when another line is added to the first.
fn copy_stays(alloc: Global, layout: &mut Layout) -> Result<bool, AllocError> {
    let copy = layout.copy(alloc)?;
    let facts = [
        has_all(layout),
        has_all(&copy),
        is_added(layout, &[b"q"]),
        has(layout, 24, "q", 3, 0x10c0) == Some(true),
        has_all(&copy),
        copy.word(b"q").is_none(),
    ];
    drop(copy);
    Ok(facts == [true; 6])
}

/// Lines with names, and a copy of them.
#[test]
fn layouts_are_made_of_lines(rt: HostRuntime) -> Result<(), Fail> {
    let mut layout = named(rt.alloc(), &[&[b"x", b"y"], &[], &[b"z"]])?;
    let copy_stays = copy_stays(rt.alloc(), &mut layout);
    drop(layout);
    assert!(rt; copy_stays?);
    Ok(())
}

/// One name more than a line has, of which none is a word's.
const NINE: [&[u8]; 9] = [b"rax"; 9];

/// What adding a line to a layout of one line is refused for, where the layout stays so.
fn refused_by(layout: &mut Layout, names: &[&[u8]]) -> Option<LayoutFault> {
    match layout.add_line(names).err()? {
        OrNoMemory::Fault(fault) if layout.lines().len() == 1 => Some(fault),
        _ => None,
    }
}

/// The same of a layout of x and y.
fn refused(alloc: Global, names: &[&[u8]]) -> Option<LayoutFault> {
    let mut layout = named(alloc, &[&[b"x", b"y"]]).ok()?;
    refused_by(&mut layout, names)
}

/// The first fault of a line: its length, and then name by name how each is spelled, and whether it stands for a word.
#[test]
fn the_first_fault_of_a_line_is_told(rt: HostRuntime) -> Result<(), Fail> {
    let rows: [(&[&[u8]], LayoutFault); 6] = [
        (&NINE, LayoutFault::LineTooLong),
        (&NINE[1..], LayoutFault::BadName),
        (&[b"x", b"rax"], LayoutFault::DoubleName),
        (&[b"1", b"x"], LayoutFault::BadName),
        (&[b"q", b"q", b"1"], LayoutFault::DoubleName),
        (&[b"q", b"1", b"q"], LayoutFault::BadName),
    ];
    for (names, fault) in rows {
        assert!(rt; refused(rt.alloc(), names) == Some(fault), "{names:?}");
    }
    let mut layout = numbered(rt.alloc(), &[1; 64])?;
    let full = layout.add_line(&NINE).err();
    drop(layout);
    assert!(rt; full == Some(OrNoMemory::Fault(LayoutFault::TooManyLines)));
    Ok(())
}

/// 65 lines, each with one name too many.
const MANY: [&[&[u8]]; 65] = [&NINE; 65];

/// The first fault of a layout: how many lines there are, and then line by line.
#[test]
fn the_first_fault_of_lines_is_told(rt: HostRuntime) {
    let rows: [(&[&[&[u8]]], LayoutFault); 5] = [
        (&MANY, LayoutFault::TooManyLines),
        (&MANY[1..], LayoutFault::LineTooLong),
        (&[&[b"x", b"rax"], &NINE], LayoutFault::BadName),
        (&[&[b"x"], &NINE, &[b"rax"]], LayoutFault::LineTooLong),
        (&[&[b"x"], &[b"x"], &[b"rax"]], LayoutFault::DoubleName),
    ];
    for (lines, wanted) in rows {
        assert!(rt; fault(rt.alloc(), lines) == Some(wanted), "{lines:?}");
    }
}

/// Of a shape, likewise: how many lines there are comes before how long one is.
#[test]
fn the_first_fault_of_a_shape_is_told(rt: HostRuntime) {
    let rows: [(&[u8], Option<LayoutFault>); 5] = [
        (&[0; 64], None),
        (&[0; 65], Some(LayoutFault::TooManyLines)),
        (&[9; 65], Some(LayoutFault::TooManyLines)),
        (&[8; 64], None),
        (&[8, 0, 9], Some(LayoutFault::LineTooLong)),
    ];
    for (words, wanted) in rows {
        assert!(rt; Shape::new(words).err() == wanted, "{words:?}");
    }
}

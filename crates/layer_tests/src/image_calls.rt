//! The calls of an image, and of the images that are formed before they are listed.
use crate::fixtures::{executed, nothing_pending, word};
use crate::machines::loaded;
use images::{Count, list};
use lines_layout::{Shape, WordId, WordValues};
use machine::{Machine, Step, View};
use pending_images::{Image, ImageFault, values_of};
use persist_buffer::Pending;
use std::alloc::{AllocError, Global};
use std::cmp::Ordering;
use std::test::Fail;

/// How many words each line has: words 0 and 1 on the first, none on the second, and word 16 on the third.
const WORDS: [u8; 3] = [2, 0, 1];

/// A write of a value to the word of a number, after what is pending.
fn write(pending: &mut Pending, number: usize, value: u64) -> Result<(), Fail> {
    Ok(pending.add_write(word(number)?, value)?)
}

/// Writes of 1 to word 0 and of 9 to word 16.
fn write_both(pending: &mut Pending) -> Result<(), Fail> {
    write(pending, 16, 9)?;
    write(pending, 0, 1)
}

/// The images of what is pending. That is the second answer, where the first was refused: `rt try --test
/// --fail-alloc N` refuses the allocation N of each test, and where `list` makes it, it has to be refused, and the same
/// call after it has to succeed.
fn listed(alloc: Global, pending: &Pending) -> Result<Vec<Image>, ImageFault> {
    let Some(countable) = pending_images::count(pending) else {
        return Err(ImageFault::TooMany);
    };
    match list(alloc, &countable) {
        Ok(images) => Ok(images),
        Err(_) => Ok(list(alloc, &countable)?),
    }
}

/// The images of those writes, where all words are 0: 0 0 0, 0 0 9, 1 0 0 and 1 0 9.
fn images(alloc: Global) -> Result<Vec<Image>, Fail> {
    let mut pending = nothing_pending(alloc, &WORDS, WordValues::zeroed(alloc)?)?;
    let written = write_both(&mut pending);
    let images = listed(alloc, &pending);
    drop(pending);
    written?;
    Ok(images?)
}

/// The value of the word of a number in the last of these images.
fn value(images: &[Image], number: usize) -> Option<u64> {
    let shape = Shape::new(&WORDS).ok()?;
    images.last()?.get(&shape, WordId::new(number)?)
}

/// The values of the words that the shape has, and none of others.
#[test]
fn images_have_values(rt: HostRuntime) -> Result<(), Fail> {
    let images = images(rt.alloc())?;
    for (number, wanted) in [
        (0, Some(1)),
        (1, Some(0)),
        (16, Some(9)),
        (2, None),
        (8, None),
    ] {
        assert!(rt; value(&images, number) == wanted, "{number}");
    }
    Ok(())
}

/// The values that a word has beside given ones. That is the second answer, where the first was refused.
fn values(
    alloc: Global,
    pending: &Pending,
    given: &[(WordId, u64)],
    word: WordId,
) -> Result<Vec<u64>, AllocError> {
    match values_of(alloc, pending, given, word) {
        Ok(values) => Ok(values),
        Err(_) => values_of(alloc, pending, given, word),
    }
}

/// The values of a word beside a value of another one, where both writes are pending.
fn values_beside(alloc: Global, number: usize, value: u64, asked: usize) -> Result<Vec<u64>, Fail> {
    let given = [(word(number)?, value)];
    let asked = word(asked)?;
    let mut pending = nothing_pending(alloc, &WORDS, WordValues::zeroed(alloc)?)?;
    let written = write_both(&mut pending);
    let values = values(alloc, &pending, &given, asked);
    drop(pending);
    written?;
    Ok(values?)
}

/// Word 16 is 0 or 9 whatever word 0 is; word 0 is what it is given; no image has 2 in it, and none has word 8.
#[test]
fn values_go_with_given_ones(rt: HostRuntime) -> Result<(), Fail> {
    let free = values_beside(rt.alloc(), 0, 1, 16)?;
    let own = values_beside(rt.alloc(), 0, 1, 0)?;
    let never = values_beside(rt.alloc(), 0, 2, 16)?;
    let absent = values_beside(rt.alloc(), 8, 0, 16)?;
    assert!(rt; free.as_slice() == [0, 9].as_slice());
    assert!(rt; own.as_slice() == [1].as_slice());
    assert!(rt; never.is_empty());
    assert!(rt; absent.is_empty());
    Ok(())
}

/// Whether the second of these images is below the third.
fn are_ordered(images: &[Image]) -> Option<bool> {
    let (low, high) = (images.get(1)?, images.get(2)?);
    let below = low.cmp(high) == Ordering::Less;
    Some(below && high.partial_cmp(low) == Some(Ordering::Greater) && *low != *high)
}

/// Whether the copy of the third is equal to it.
fn is_copied(alloc: Global, images: &[Image]) -> Option<bool> {
    let image = images.get(2)?;
    Some(image.copy(alloc).ok()? == *image)
}

/// Images are ordered by the first word in which they differ: 0 0 9 is below 1 0 0.
#[test]
fn images_are_ordered(rt: HostRuntime) -> Result<(), Fail> {
    let images = images(rt.alloc())?;
    assert!(rt; are_ordered(&images) == Some(true));
    assert!(rt; is_copied(rt.alloc(), &images) == Some(true));
    Ok(())
}

/// Whether images have these values of two words, in this order.
fn are(images: &[Image], values: &[[u64; 2]]) -> bool {
    images.len() == values.len()
        && images
            .iter()
            .zip(values)
            .all(|(image, of)| image.values() == of.as_slice())
}

/// Whether each image of a list is in another one.
fn stand_in(some: &[Image], others: &[Image]) -> bool {
    some.iter().all(|image| others.contains(image))
}

/// Whether a state has these images, and six candidates, of which each is formed.
fn has_six(alloc: Global, view: &View<'_>) -> Option<bool> {
    let listed = list(alloc, &images::count(view)?).ok()?;
    let formed = images::products(alloc, view).ok()?;
    let rows = [[0, 2], [0, 6], [1, 2], [1, 6]];
    let facts = [
        Count::of(images::count(view)) == Count::Number(6),
        formed.len() == 6,
        stand_in(&formed, &listed),
        stand_in(&listed, &formed),
        are(&listed, &rows),
    ];
    Some(facts == [true; 5])
}

/// Before the marker of x the write of x is persisted or not; after it the second write of x, that of y, both or
/// neither: two candidates and four, of which two give images that others give too.
#[test]
fn each_candidate_is_formed(rt: HostRuntime) -> Result<(), Fail> {
    let machine = executed(rt.alloc())?;
    let has_six = has_six(rt.alloc(), &machine.view());
    drop(machine);
    assert!(rt; has_six == Some(true));
    Ok(())
}

/// Two processors that write and flush four words on three lines, round after round.
const ROUNDS: &str = "litmus 1\nline a b\nline c\nline d\n\
    cpu\nl0:\nmov [a], 1\nmov [b], 2\nclflush [a]\nmov [c], 3\nmov [a], 4\nclwb [c]\nmov [d], 5\njmp l0\nend\n\
    cpu\nl0:\nmov [d], 6\nmov [a], 7\nclflush [d]\nmov [b], 8\nmov [d], 9\nclflush [b]\njmp l0\nend\n";

/// The next number of a generator, of which the high bits are used.
fn next(number: u64) -> u64 {
    number
        .wrapping_mul(6364136223846793005)
        .wrapping_add(1442695040888963407)
}

/// The step that a number stands for: of 16, six run an instruction, six drain, three persist and one settles.
fn step_of(number: u64) -> Step {
    let part = (number >> 40) as u32 % 64;
    match number >> 60 {
        0..=5 => Step::Exec(part % 2),
        6..=11 => Step::Drain(part % 2, part / 2 % 3),
        12..=14 => Step::Persist(part % 3),
        _ => Step::Settle,
    }
}

/// Makes eight steps that a number leads to, of which some are refused, and answers the number after them.
fn wander(machine: &mut Machine, number: u64) -> u64 {
    let mut number = number;
    for _ in 0..8 {
        number = next(number);
        let _ = machine.step(step_of(number));
    }
    number
}

/// Whether each image is below the next.
fn are_rising(images: &[Image]) -> bool {
    images.windows(2).all(|pair| pair[0] < pair[1])
}

/// Whether the images that are formed of a state, one for each candidate, are those that are listed.
fn are_formed(alloc: Global, view: &View<'_>, candidates: u64) -> Option<bool> {
    let listed = list(alloc, &images::count(view)?).ok()?;
    let formed = images::products(alloc, view).ok()?;
    let facts = [
        formed.len() as u64 == candidates,
        stand_in(&formed, &listed),
        stand_in(&listed, &formed),
        are_rising(&listed),
    ];
    Some(facts == [true; 4])
}

/// How many candidates a state has, where these are few, and none otherwise.
fn few(view: &View<'_>) -> Option<u64> {
    let number = images::count(view)?.number();
    (number <= 300).then_some(number)
}

/// One more, where something holds.
fn counted(number: u32, holds: bool) -> u32 {
    if holds {
        number.saturating_add(1)
    } else {
        number
    }
}

/// Of so many states that random steps lead to: in how many the images are those that are formed, and in how many of these
/// there are more than ten candidates. Where there are too many, the power fails.
fn compared(alloc: Global, machine: &mut Machine, states: u32) -> (u32, u32) {
    let (mut number, mut right, mut wide) = (1, 0, 0);
    for _ in 0..states {
        number = wander(machine, number);
        if few(&machine.view()).is_none() {
            let _ = machine.step(Step::Crash);
        }
        let candidates = few(&machine.view());
        if let Some(candidates) = candidates {
            let are_formed = are_formed(alloc, &machine.view(), candidates) == Some(true);
            right = counted(right, are_formed);
            wide = counted(wide, are_formed && candidates > 10);
        }
    }
    (right, wide)
}

/// In each state the images that are formed are those that are listed, as many as there are candidates.
#[test]
fn products_are_the_images(rt: HostRuntime) -> Result<(), Fail> {
    let mut machine = loaded(rt.alloc(), ROUNDS)?;
    let (right, wide) = compared(rt.alloc(), &mut machine, 400);
    drop(machine);
    assert!(rt; right == 400);
    assert!(rt; wide >= 100);
    Ok(())
}

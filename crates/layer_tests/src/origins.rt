//! The writes that are missing in a crash image, and why each may be.
use crate::fixtures::word;
use image_reasons::{Missing, Site, Why, missing_writes};
use litmus_text::read_litmus;
use machine::Step;
use pending_images::Image;
use std::alloc::Global;
use std::test::Fail;

/// Words a, b, c, d and e on a line each, that is 0, 8, 16, 24 and 32. After a crash the first processor stores to a again.
const TEXT: &str = "litmus 1\nline a\nline b\nline c\nline d\nline e\n\
    cpu\nmov [a], 1\nclwb [a]\nmov [c], 2\nclflush [b]\nmov [b], 3\nmov [d], 4\nrecover\nnop\nmov [a], 7\nend\n\
    cpu\nmov [e], 5\nclflush [e]\nmov [d], 0\nend\n";

/// The first processor runs its program. The store of a leaves its store buffer, and that of c, which passes the flush of
/// a, then the flush of b and the store of b. Those of d and the flush of a stay. The second processor runs its program,
/// and all of it leaves. So pending are `W a 1, W c 2, PER b, W b 3, W e 5, PER e, W d 0`.
const STEPS: [Step; 16] = [
    Step::Exec(0),
    Step::Exec(0),
    Step::Exec(0),
    Step::Exec(0),
    Step::Exec(0),
    Step::Exec(0),
    Step::Drain(0, 0),
    Step::Drain(0, 1),
    Step::Drain(0, 1),
    Step::Drain(0, 1),
    Step::Exec(1),
    Step::Exec(1),
    Step::Exec(1),
    Step::Drain(1, 0),
    Step::Drain(1, 0),
    Step::Drain(1, 0),
];

/// A store between two optimized flushes of its line. It passes the first.
const FLUSHED_TWICE: &str = "litmus 1\nline a\ncpu\nclwb [a]\nmov [a], 1\nclwb [a]\nend\n";

/// A place of the first processor's main program.
const fn main(place: usize) -> Site {
    Site {
        processor: 0,
        recovering: false,
        place,
    }
}

/// A place of the second processor's main program.
const fn second(place: usize) -> Site {
    Site {
        processor: 1,
        ..main(place)
    }
}

/// A write of a value to the word of a number, and why it is missing.
fn write(number: usize, value: u64, site: Site, why: Why) -> Result<Missing, Fail> {
    Ok(Missing {
        word: word(number)?,
        value,
        site,
        why,
    })
}

/// The image of these values.
fn image(alloc: Global, values: &[u64]) -> Result<Image, Fail> {
    let mut all = Vec::new(alloc);
    all.extend_from_slice(values)?;
    Ok(Image::new(all))
}

/// Whether these writes are missing in an image after steps of a text; with none given, whether nothing is answered.
fn are_missing(
    alloc: Global,
    text: &str,
    steps: &[Step],
    values: &[u64],
    wanted: Option<&[Missing]>,
) -> Result<bool, Fail> {
    let image = image(alloc, values)?;
    let object = read_litmus(alloc, text.as_bytes())?;
    let found = missing_writes(alloc, &object, steps, &image);
    drop(image);
    drop(object);
    let found = found?;
    Ok(found.as_deref() == wanted)
}

/// What is missing in the image of zeros: the store of a, of c, of b, of e and of d, one for each reason.
fn all_missing() -> Result<[Missing; 5], Fail> {
    let passed = Why::FlushBuffered(main(1), Some(main(2)));
    Ok([
        write(0, 1, main(0), passed)?,
        write(16, 2, main(2), Why::NeverFlushed)?,
        write(8, 3, main(4), Why::FlushedBefore(main(3)))?,
        write(32, 5, second(0), Why::FlushPending(second(1)))?,
        write(24, 4, main(5), Why::InStoreBuffer)?,
    ])
}

/// Pending writes come first. That of 0 to d is not missing, as the image has this value.
#[test]
fn each_write_has_its_reason(rt: HostRuntime) -> Result<(), Fail> {
    let all = all_missing()?;
    assert!(rt; are_missing(rt.alloc(), TEXT, &STEPS, &[0; 5], Some(&all))?);
    Ok(())
}

/// The store of a alone persists; that of b with the flush before it; that of e with that flush; all that is pending. Where the
/// image has the store of b, that is the one that is told to have passed the flush of a.
#[test]
fn what_persisted_is_not_missing(rt: HostRuntime) -> Result<(), Fail> {
    let [a, c, b, e, d] = all_missing()?;
    let past = write(0, 1, main(0), Why::FlushBuffered(main(1), Some(main(4))))?;
    let rows: [(&[u64], &[Missing]); 4] = [
        (&[1, 0, 0, 0, 0], &[c, b, e, d]),
        (&[0, 3, 0, 0, 0], &[past, c, e, d]),
        (&[0, 0, 0, 0, 5], &[a, c, b, d]),
        (&[1, 3, 2, 0, 5], &[d]),
    ];
    for (values, wanted) in rows {
        assert!(rt; are_missing(rt.alloc(), TEXT, &STEPS, values, Some(wanted))?);
    }
    Ok(())
}

/// A value that no store has, an image of too few words, and a step that is refused.
#[test]
fn what_no_crash_leaves_has_no_answer(rt: HostRuntime) -> Result<(), Fail> {
    let rows: [(&[Step], &[u64]); 3] = [
        (&STEPS, &[9, 0, 0, 0, 0]),
        (&STEPS, &[0; 4]),
        (&[Step::Drain(0, 0)], &[0; 5]),
    ];
    for (steps, values) in rows {
        assert!(rt; are_missing(rt.alloc(), TEXT, steps, values, None)?);
    }
    Ok(())
}

/// A place of the first processor's recovery program.
const RECOVERY: Site = Site {
    processor: 0,
    recovering: true,
    place: 1,
};

/// A store to a and its flush before a crash; the recovery program, which a second crash begins anew; the drain.
const CRASHING: [Step; 8] = [
    Step::Exec(0),
    Step::Exec(0),
    Step::Crash,
    Step::Exec(0),
    Step::Crash,
    Step::Exec(0),
    Step::Exec(0),
    Step::Drain(0, 0),
];

/// The flush of a was before a crash, so the second store of a was never flushed.
#[test]
fn a_crash_ends_what_was(rt: HostRuntime) -> Result<(), Fail> {
    let rows = [(7, Why::InStoreBuffer), (8, Why::NeverFlushed)];
    for (count, why) in rows {
        let wanted = [write(0, 7, RECOVERY, why)?];
        let steps = &CRASHING[..count];
        assert!(rt; are_missing(rt.alloc(), TEXT, steps, &[0; 5], Some(&wanted))?);
    }
    Ok(())
}

/// Another processor's store passes no flush.
#[test]
fn own_stores_pass_a_flush(rt: HostRuntime) -> Result<(), Fail> {
    let (exec, drain) = (Step::Exec(0), Step::Drain(0, 0));
    let steps = [exec, exec, drain, Step::Exec(1), Step::Drain(1, 0)];
    let a = write(0, 1, main(0), Why::FlushBuffered(main(1), None))?;
    let e = write(32, 5, second(0), Why::NeverFlushed)?;
    assert!(rt; are_missing(rt.alloc(), TEXT, &steps, &[0; 5], Some(&[a, e]))?);
    Ok(())
}

/// A flush before the store of its own line, although the store has left first; and one behind it, which is still buffered.
#[test]
fn a_flush_is_before_the_store_or_behind_it(rt: HostRuntime) -> Result<(), Fail> {
    let exec = Step::Exec(0);
    let steps = [exec, exec, Step::Drain(0, 1), exec];
    let early = Why::FlushedBefore(main(0));
    let late = Why::FlushBuffered(main(2), None);
    for (count, why) in [(3, early), (4, late)] {
        let wanted = [write(0, 1, main(1), why)?];
        let steps = &steps[..count];
        assert!(rt; are_missing(rt.alloc(), FLUSHED_TWICE, steps, &[0], Some(&wanted))?);
    }
    Ok(())
}

/// Words a and z on one line, and b. A store of b is between that of a and the flush of its line, and one of z is behind.
const ONE_LINE: &str =
    "litmus 1\nline a z\nline b\ncpu\nmov [a], 1\nmov [b], 2\nclflush [a]\nmov [z], 3\nend\n";

/// The stores of a and b have left, and the flush and the store of z have not. At the end a store persists.
fn left(persisted: u32) -> [Step; 7] {
    let (exec, drain) = (Step::Exec(0), Step::Drain(0, 0));
    [
        exec,
        exec,
        exec,
        exec,
        drain,
        drain,
        Step::Persist(persisted),
    ]
}

/// Whether these writes are missing, before the oldest store of a line persists and behind that.
fn are_missing_twice(
    alloc: Global,
    line: u32,
    values: &[u64],
    wanted: &[Missing],
) -> Result<bool, Fail> {
    let steps = left(line);
    let pending = are_missing(alloc, ONE_LINE, &steps[..6], values, Some(wanted))?;
    let persisted = are_missing(alloc, ONE_LINE, &steps, values, Some(wanted))?;
    Ok(pending && persisted)
}

/// The store that the image has is told: between the other one and its flush, and before the one that is buffered. It may have
/// persisted, or be pending.
#[test]
fn a_store_of_the_image_is_told(rt: HostRuntime) -> Result<(), Fail> {
    let behind = write(0, 1, main(0), Why::FlushBehind(main(2), main(1)))?;
    let buffered = write(1, 3, main(3), Why::InStoreBuffer)?;
    assert!(rt; are_missing_twice(rt.alloc(), 1, &[0, 0, 2], &[behind, buffered])?);
    let other = write(8, 2, main(1), Why::NeverFlushed)?;
    let after = write(1, 3, main(3), Why::StoredAfter(main(0)))?;
    assert!(rt; are_missing_twice(rt.alloc(), 0, &[1, 0, 0], &[other, after])?);
    Ok(())
}

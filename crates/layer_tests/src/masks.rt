//! The operations that wait, as masks of their places: the oldest that holds another, and copies.
use order_table::{Kind, Masks, holder};

/// A write to line 0, and a `clflushopt`, a write and a `clflush` of line 63.
#[test]
fn the_oldest_holder_is_named(rt: HostRuntime) {
    let mut masks = Masks::new();
    masks.push(Kind::Write, Some(0));
    masks.push(Kind::FlushOpt, Some(63));
    masks.push(Kind::Write, Some(63));
    masks.push(Kind::Flush, Some(63));
    let copy = masks.copy();
    // The write of line 0 and the `clflushopt` do not hold it: the write of line 63 is the oldest that does. Before
    // place 2 nothing does.
    let at_first = [
        holder(&masks, 4, Kind::FlushOpt, Some(63)),
        holder(&masks, 2, Kind::FlushOpt, Some(63)),
        holder(&masks, 4, Kind::Sfence, None),
    ];
    masks.take(0);
    let then = [
        holder(&masks, 3, Kind::FlushOpt, Some(63)),
        holder(&masks, 3, Kind::Sfence, None),
        holder(&copy, 4, Kind::FlushOpt, Some(63)),
    ];
    assert!(rt; at_first == [Some(2), None, Some(0)]);
    assert!(rt; then == [Some(1), Some(0), Some(2)]);
}

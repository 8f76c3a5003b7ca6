//! The table of kept order, and the masks of places that keep it.
use order_table::{Kind, Masks, holder, keeps};

/// Whether two operations are kept in order.
#[derive(Clone, Copy, Debug, PartialEq, Eq)]
enum Cell {
    /// They are.
    Y,
    /// They are not.
    N,
    /// Where both name one cache line.
    CL,
}

use Cell::{CL, N, Y};

/// The kinds, in the order of the table's rows and columns.
const KINDS: [Kind; 7] = [
    Kind::Read,
    Kind::Write,
    Kind::Rmw,
    Kind::Mfence,
    Kind::Sfence,
    Kind::FlushOpt,
    Kind::Flush,
];

/// The table, as the documents print it: a row for each earlier kind, a column for each later one.
const TABLE: [[Cell; 7]; 7] = [
    [Y, Y, Y, Y, Y, Y, Y],
    [N, Y, Y, Y, Y, CL, Y],
    [Y, Y, Y, Y, Y, Y, Y],
    [Y, Y, Y, Y, Y, Y, Y],
    [N, Y, Y, Y, Y, Y, Y],
    [N, N, Y, Y, Y, N, CL],
    [N, Y, Y, Y, Y, CL, Y],
];

/// The cell that says what is kept of two lines, and of one.
fn cell_of(of_two: bool, of_one: bool) -> Option<Cell> {
    match (of_two, of_one) {
        (true, true) => Some(Y),
        (false, false) => Some(N),
        (false, true) => Some(CL),
        (true, false) => None,
    }
}

/// Whether an operation holds a later one of its line, or of another, by the masks.
fn is_held(earlier: Kind, later: Kind, same_line: bool) -> bool {
    let mut masks = Masks::new();
    masks.push(earlier, Some(3));
    let line = if same_line { 3 } else { 4 };
    holder(&masks, 1, later, Some(line)) == Some(0)
}

#[test]
fn each_cell_is_that_of_the_table(rt: HostRuntime) {
    for row in 0..7 {
        for column in 0..7 {
            let (earlier, later) = (KINDS[row], KINDS[column]);
            let wanted = Some(TABLE[row][column]);
            let kept = cell_of(keeps(earlier, later, false), keeps(earlier, later, true));
            let held = cell_of(
                is_held(earlier, later, false),
                is_held(earlier, later, true),
            );
            assert!(rt; kept == wanted, "{row} {column}");
            assert!(rt; held == wanted, "{row} {column}, by the masks");
        }
    }
}

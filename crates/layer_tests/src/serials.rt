//! Pending lists whose serials begin anew.
ghost use Rattle.std.specs.Prelude.{◌≤◌};
ghost use Rattle.persist_buffer.specs.Limits.{serial_limit};

use crate::fixtures::word;
use lines_layout::{LineId, Shape, WordValues};
use persist_buffer::{Pending, PendingEntry, SERIAL_LIMIT};
use std::alloc::Global;
use std::test::Fail;

/// Adds entry i of the test: a marker at every tenth, otherwise a write to the first word of one of three lines.
fn add(pending: &mut Pending, i: usize) -> Result<(), Fail> {
    if i % 10 == 5 {
        let line = LineId::new(i % 3).ok_or("no line")?;
        pending.add_marker(line)?;
    } else {
        pending.add_write(word(i % 3 * 8)?, i as u64)?;
    }
    Ok(())
}

/// Adds 20 entries, of which three leave, the first and two among those that stay, and then one more.
fn add_all(pending: &mut Pending) -> Result<(), Fail> {
    for i in 0..20 {
        add(pending, i)?;
    }
    pending.persist(0)?;
    pending.persist(0)?;
    pending.persist(2)?;
    add(pending, 20)
}

/// The list after those adds.
fn listed(alloc: Global, pending: &mut Pending) -> Result<Vec<PendingEntry>, Fail> {
    add_all(pending)?;
    Ok(pending.list(alloc)?)
}

/// The list after 21 adds to three lines, where the first entry gets this serial.
fn list_from(alloc: Global, serial: u64) -> Result<Vec<PendingEntry>, Fail>
    requires { serial ≤ serial_limit }
{
    let values = WordValues::zeroed(alloc)?;
    let shape = Shape::new(&[1, 1, 1])?;
    match Pending::starting_at(alloc, &shape, values, serial) {
        Ok(mut pending) => listed(alloc, &mut pending),
        Err(_) => Err(Fail::new("no memory")),
    }
}

/// Where no serial is left, for the 21st entry, an add numbers all entries anew, and the list is the same.
#[test]
fn serials_begin_anew(rt: HostRuntime) -> Result<(), Fail> {
    let plain = list_from(rt.alloc(), 0)?;
    let anew = list_from(rt.alloc(), SERIAL_LIMIT - 20)?;
    assert!(rt; anew == plain);
    assert!(rt; plain.len() == 18);
    Ok(())
}

//! The registers of an outcome as JSON.
ghost use Rattle.std.specs.Prelude.{IfOk, OnOk};
ghost use Rattle.json_texts.specs.Objects.{GetsFields, IsJsonOf};
ghost use Rattle.json_texts.specs.RegisterData.{value_fields, values_data};

use crate::fields::{Fields, put_number};
use commands::number_at;
use isa::{REGISTERS, Reg};
use serde_json::Value;
use std::alloc::{AllocError, Global};

/// Puts a register into an object, unless it is 0.
fn put_value(fields: &mut Fields, alloc: Global, values: &[u64], r: Reg) -> Result<(), AllocError>
    ensures { OnOk result (GetsFields fields.old.entries fields.new.entries
        (value_fields values.now r)) }
{
    let value = number_at(values, r as usize);
    if value != 0 {
        put_number(fields, alloc, r.name(), value)?;
    }
    Ok(())
}

/// The registers that are not 0, where they have these values, in the order of `isa::REGISTERS`.
///
/// # Errors
///
/// Out of memory.
pub fn registers_value(alloc: Global, values: &[u64]) -> Result<Value, AllocError>
    ensures { IfOk result (IsJsonOf (values_data values.now)) }
{
    let mut fields = Fields::new(alloc);
    for r in REGISTERS {
        put_value(&mut fields, alloc, values, r)?;
    }
    Ok(Value::from(fields))
}

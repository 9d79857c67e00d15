//! Lists of values, copied.

ghost use Rattle.std.specs.Prelude.{◌≡◌, OnOk, length};

use ioa_values::{Value, ValueForm, copies};
use std::alloc::{AllocError, Global};

/// Makes values what others are, with which they share their collections then. Takes no memory if there are as many. If
/// no memory is left, they are some values, and as many as before if there were as many.
#[inline(always)]
pub fn copy_values(alloc: Global, from: &[Value], to: &mut Vec<Value>) -> Result<(), AllocError>
    ensures copied { OnOk result (to.new.items ≡ from.now) }
    ensures kept { length to.old.items ≡ length from.now → length to.new.items ≡ length from.now }
{
    if to.len() == from.len() {
        for position in 0..from.len() {
            copy_value(&from[position], &mut to[position])?;
        }
        return Ok(());
    }
    *to = copies(alloc, from)?;
    Ok(())
}

/// Makes a value what another one is.
#[inline(always)]
fn copy_value(from: &Value, to: &mut Value) -> Result<(), AllocError>
    ensures { OnOk result (to.new ≡ from.now) }
{
    match &from.form {
        ValueForm::Number(n) => to.set_number(*n),
        ValueForm::Truth(b) => to.set_truth(*b),
        _ => *to = from.try_copy()?,
    }
    Ok(())
}

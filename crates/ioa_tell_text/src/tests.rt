//! Tests that are false, as text.

ghost use Rattle.std.specs.Prelude.{◌≡◌, ◌++◌, false, IfOk, OnOk, codes, map};
ghost use Rattle.ioa_terms.specs.View.{term_of};
ghost use Rattle.ioa_values.specs.Outcome.{Writes};
ghost use Rattle.ioa_values.specs.Text.{text};
ghost use Rattle.ioa_reasons.specs.PlainReasons.{named_value};
ghost use Rattle.ioa_tell_text.specs.Terms.{name_text};
ghost use Rattle.ioa_tell_text.specs.Tests as spec;

use crate::kept::KeptText;
use crate::terms::{push_name, push_term};
use ioa_reasons::{NamedValue, Test};
use ioa_terms::{Checked, Name};
use ioa_values::{Names, Value, push_shown, show};
use std::alloc::{AllocError, Global};

/// The part of a test that is false, and the values of its names, as text.
pub(crate) fn false_text(
    alloc: Global,
    names: &Names,
    test: Test,
    part: &Checked,
    values: &[NamedValue<'_>],
) -> Result<KeptText, AllocError>
    ensures { IfOk result
        (λ t. t ≡ spec.false_text names.now test (term_of part.now) (map named_value values.now)) }
{
    let mut out = String::new(alloc);
    push_false(alloc, &mut out, names, test, part, values)?;
    Ok(KeptText::new(out))
}

/// Writes which part of a test is false, and the values of its names.
pub(crate) fn push_false(
    alloc: Global,
    out: &mut String,
    names: &Names,
    test: Test,
    part: &Checked,
    values: &[NamedValue<'_>],
) -> Result<(), AllocError>
    ensures { OnOk result (Writes out.old out.new
        (spec.false_text names.now test (term_of part.now) (map named_value values.now))) }
{
    out.push_str(test_word(test))?;
    push_term(out, part)?;
    out.push_str(" is false")?;
    push_values(alloc, out, names, values)
}

/// The word of a test, and a space.
fn test_word(test: Test) -> &'static str
    ensures { result.now ≡ spec.test_word test }
{
    match test {
        Test::Where => "where ",
        Test::Guard => "guard ",
    }
}

/// Writes the values of names in round brackets; nothing if there are none, or if each is written as its name.
pub(crate) fn push_values(
    alloc: Global,
    out: &mut String,
    names: &Names,
    values: &[NamedValue<'_>],
) -> Result<(), AllocError>
    ensures { OnOk result (Writes out.old out.new (spec.values_text names.now false (map named_value values.now))) }
{
    let mut written = false;
    for named in values {
        written = push_value(alloc, out, names, written, named.name, &named.value)?;
    }
    push_values_end(out, written)
}

/// Writes the bracket behind the values, if there are any.
fn push_values_end(out: &mut String, written: bool) -> Result<(), AllocError>
    ensures { OnOk result (Writes out.old out.new (spec.values_end written)) }
{
    if written { out.push_str(")") } else { Ok(()) }
}

/// Writes a name with its value, unless the value is written as the name. Whether a value is written then.
fn push_value(
    alloc: Global,
    out: &mut String,
    names: &Names,
    written: bool,
    name: &Name,
    value: &Value,
) -> Result<bool, AllocError>
    ensures text { OnOk result (Writes out.old out.new
        (spec.value_unless (spec.is_own_name names.now name.now value.now) names.now written name.now value.now)) }
    ensures written { IfOk result
        (λ b. b ≡ spec.written_then (spec.is_own_name names.now name.now value.now) written) }
{
    if is_own_name(alloc, names, name, value)? {
        Ok(written)
    } else {
        push_named(out, names, written, name, value)?;
        Ok(true)
    }
}

/// Writes a name with its value, behind others if there are such.
fn push_named(
    out: &mut String,
    names: &Names,
    written: bool,
    name: &Name,
    value: &Value,
) -> Result<(), AllocError>
    ensures { OnOk result (Writes out.old out.new (spec.lead_text written
        ++ (name_text name.now ++ (codes " = " ++ text names.now value.now)))) }
{
    out.push_str(lead_text(written))?;
    push_name(out, name)?;
    out.push_str(" = ")?;
    push_shown(out, names, value)
}

/// What stands in front of a value.
fn lead_text(written: bool) -> &'static str
    ensures { result.now ≡ spec.lead_text written }
{
    if written { ", " } else { " (" }
}

/// Whether a value is written as its name is, as a constant's is.
fn is_own_name(alloc: Global, names: &Names, name: &Name, value: &Value) -> Result<bool, AllocError>
    ensures { IfOk result (λ b. b ≡ spec.is_own_name names.now name.now value.now) }
{
    match name {
        Name::Word(word) => {
            let shown = show(alloc, names, value)?;
            Ok(word.as_str() == shown.as_str())
        }
        Name::Variable { .. } => Ok(false),
        Name::Queue { .. } => Ok(false),
    }
}

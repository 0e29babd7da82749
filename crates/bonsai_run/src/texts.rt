//! The texts that an order names.

ghost use Rattle.std.specs.Prelude.{◌≡◌, ◌<◌, ◌≤◌, length, IfOk, IfErr, true};
ghost use Rattle.ltl_form.specs.Formula.{signals_below};
ghost use Rattle.tlsf_basic.specs.Specification.{signal_count};
ghost use Rattle.bonsai_run.specs.Causes.{IsUnreadable, IsFetchFault};
ghost use Rattle.bonsai_run.specs.Faults.{Blames, named};
ghost use Rattle.bonsai_run.specs.Texts.{IsUnder, IsSpecOf};

use crate::faults::{Fault, Source};
use shelf_io::{Shelf, ShelfError};
use std::alloc::Global;
use tlsf_basic::{Spec, read_spec};

/// The most bytes of a text.
const MOST_BYTES: usize = 1_048_576;

/// The one of an order's names that is meant.
fn named<'a>(name: &'a str, other: &'a str, source: Source) -> &'a str
    ensures { result.now ≡ named name.now other.now source }
{
    match source {
        Source::Specification => name,
        Source::Other => other,
    }
}

/// The bytes of one of an order's texts, at most 1,048,576.
pub fn text_of<H: Shelf>(
    alloc: Global,
    shelf: &mut H,
    name: &str,
    other: &str,
    source: Source,
) -> Result<Vec<u8>, Fault>
    requires { 0 < length (named name.now other.now source) }
    ensures short { IfOk result (λ text. length text.items ≤ 1048576) }
    ensures under { IfOk result (λ text. IsUnder (H.texts shelf.old) (named name.now other.now source) text.items) }
    ensures long { IfErr result (λ e. IsFetchFault (H.texts shelf.old) name.now other.now source e) }
    ensures texts_stay { H.texts shelf.new ≡ H.texts shelf.old }
    ensures blames { IfErr result (Blames (H.faults shelf.old) (H.faults shelf.new) (H.last_failed shelf.new) name.now other.now) }
    ensures later { H.faults shelf.old ≤ H.faults shelf.new }
{
    let asked = named(name, other, source);
    match shelf.fetch(alloc, asked, MOST_BYTES + 1) {
        Ok(text) => {
            if text.len() > MOST_BYTES {
                return Err(Fault::Length(source));
            }
            Ok(text)
        }
        Err(ShelfError::Failed) => Err(Fault::Unread(source)),
        Err(ShelfError::Memory) => Err(Fault::Memory),
    }
}

/// The specification that an order names.
pub fn specification<H: Shelf>(
    alloc: Global,
    shelf: &mut H,
    name: &str,
    other: &str,
    as_written: bool,
) -> Result<Spec, Fault>
    requires { 0 < length name.now }
    ensures few { IfOk result (λ spec. signal_count spec.names ≤ 40) }
    ensures numbered { IfOk result (λ spec. signals_below (signal_count spec.names) spec.formula ≡ true) }
    ensures is { IfOk result (IsSpecOf (H.texts shelf.old) name.now as_written) }
    ensures cause { IfErr result (IsUnreadable (H.texts shelf.old) name.now as_written) }
    ensures texts_stay { H.texts shelf.new ≡ H.texts shelf.old }
    ensures blames { IfErr result (Blames (H.faults shelf.old) (H.faults shelf.new) (H.last_failed shelf.new) name.now other.now) }
    ensures later { H.faults shelf.old ≤ H.faults shelf.new }
{
    let text = text_of(alloc, shelf, name, other, Source::Specification)?;
    Ok(read_spec(alloc, &text, as_written)?)
}

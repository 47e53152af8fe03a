//! What a statement places.

ghost use Rattle.std.specs.Prelude.{◌≡◌};
ghost use Rattle.ir_asm.specs.Faults.{YieldsOrFaults};
ghost use Rattle.ir_asm.specs.Source.{same_section, may_stand, texts_of, item_with, item_in};

use crate::cause::Cause;
use crate::form::{Form, Section};
use crate::item::Item;
use crate::items::item_of;
use crate::operands::operands_of;
use crate::refusal::Refusal;
use crate::table::{form_named, in_image, may_come, stands_in, stated};
use crate::text::{name_and_rest, trim};
use ir_image::ImageForm;
use std::alloc::Global;

pub fn same_section(a: Section, b: Section) -> bool
    ensures { result ≡ same_section a b }
{
    match (a, b) {
        (Section::Text, Section::Text) | (Section::Data, Section::Data) => true,
        _ => false,
    }
}

// Whether a form for a section, if it is for one, may be in this one.
fn may_stand(form: Option<Section>, section: Section) -> bool
    ensures { result ≡ may_stand form section }
{
    match form {
        Some(wanted) => same_section(wanted, section),
        None => true,
    }
}

// What the operands of a form say.
fn item_with(alloc: Global, form: Form, text: &[u8]) -> Result<Item, Refusal>
    ensures { YieldsOrFaults (λ i. i) result (item_with form (texts_of text.now)) }
{
    match operands_of(alloc, form, text) {
        Ok(operands) => Ok(item_of(alloc, form, operands.as_slice())?),
        Err(refusal) => Err(refusal),
    }
}

/// What a statement places, after statements that say a form, and in a section.
pub fn item_in(
    alloc: Global,
    before: Option<ImageForm>,
    section: Section,
    statement: &[u8],
) -> Result<Item, Refusal>
    ensures { YieldsOrFaults (λ i. i) result (item_in before section statement.now) }
{
    let (name, rest) = name_and_rest(statement);
    let form = match form_named(name) {
        Some(form) => form,
        None => return Err(Refusal::Faulty(Cause::UnknownStatement)),
    };
    if !may_come(before, form) || !may_stand(stands_in(form), section) {
        return Err(Refusal::Faulty(Cause::WrongSection));
    }
    item_with(alloc, in_image(stated(before), form), trim(rest))
}

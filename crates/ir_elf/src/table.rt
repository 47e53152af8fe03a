//! Reading the table.

ghost use Rattle.std.specs.Prelude.{◌≡◌, ◌≤◌, length, IfOk};
ghost use Rattle.ir_bytes.specs.Reading.{field_at, fields_at};
ghost use Rattle.ir_bytes.specs.Format.{IsRead};
ghost use Rattle.ir_image.specs.Guest.{limits_of, most_code_words};
ghost use Rattle.ir_elf.specs.declared.refusal.Refusal.TheVariants.{Table};
ghost use Rattle.ir_elf.specs.Refusal.{YieldsOrRefuses};
ghost use Rattle.ir_elf.specs.Table.{form_field, table_form, threads_field, table_entry_at, are_objects, table_at};

use crate::elf_err::ElfErr;
use crate::memory::words_of;
use crate::refusal::Refusal;
use ir_bytes::word;
use ir_image::{CODE_START, ImageForm};
use std::alloc::Global;

/// What the table says: the form, each thread's entry, and the objects' first words.
#[derive(Drop)]
pub struct TableParts {
    pub form: ImageForm,
    pub entries: Vec<u32>,
    pub words: Vec<u32>,
}

// The form, and the bytes after its number.
#[tactic(auto, unfolding(ir_bytes::specs::Reading::field_at))]
fn form(bytes: &[u8]) -> Result<(u32, &[u8]), Refusal>
    ensures { IsRead (λ x. (x.0, x.1.now)) result (field_at Table form_field bytes.now) }
{
    let (number, rest) = word(bytes, Refusal::Table)?;
    if number == 1 || number == 2 {
        Ok((number, rest))
    } else {
        Err(Refusal::Table)
    }
}

// The form of a number.
fn form_of(number: u32) -> ImageForm
    ensures { result ≡ table_form number }
{
    if number == 2 {
        ImageForm::Large
    } else {
        ImageForm::Small
    }
}

// How many threads there are, and the bytes after their number.
#[tactic(auto, unfolding(ir_bytes::specs::Reading::field_at))]
fn threads(form: ImageForm, bytes: &[u8]) -> Result<(u32, &[u8]), Refusal>
    ensures exact { IsRead (λ x. (x.0, x.1.now)) result (field_at Table (threads_field form) bytes.now) }
    ensures some { IfOk result (λ x. 1 ≤ x.0) }
    ensures few { IfOk result (λ x. x.0 ≤ (limits_of form).threads) }
    ensures taken { IfOk result (λ x. length x.1.now ≤ length bytes.now) }
{
    let (number, rest) = word(bytes, Refusal::Table)?;
    if 1 <= number && number <= form.limits().threads as u32 {
        Ok((number, rest))
    } else {
        Err(Refusal::Table)
    }
}

// An entry into code of `code` words, and the bytes after it.
#[tactic(auto, unfolding(ir_bytes::specs::Reading::field_at))]
fn entry(code: u32, bytes: &[u8]) -> Result<(u32, &[u8]), Refusal>
    requires { code ≤ most_code_words }
    ensures { IsRead (λ x. (x.0, x.1.now)) result (table_entry_at code bytes.now) }
{
    let (entry, rest) = word(bytes, Refusal::Table)?;
    if entry % 4 == 0 && entry >= CODE_START && entry < CODE_START + 4 * code {
        Ok((entry, rest))
    } else {
        Err(Refusal::Entry)
    }
}

// `count` entries, and the bytes after them.
fn entries(alloc: Global, count: u32, code: u32, bytes: &[u8]) -> Result<(Vec<u32>, &[u8]), ElfErr>
    requires { code ≤ most_code_words }
    ensures { YieldsOrRefuses (λ x. (x.0.items, x.1.now)) result (fields_at (table_entry_at code) count bytes.now) }
{
    let mut entries = Vec::new(alloc);
    let mut rest = bytes;
    for _ in 0..count {
        let (one, after) = entry(code, rest)?;
        entries.push(one)?;
        rest = after;
    }
    Ok((entries, rest))
}

// Whether `count` bytes are those of whole objects, and not of too many.
fn are_objects(form: ImageForm, count: usize) -> bool
    ensures { result ≡ are_objects form count }
{
    let limits = form.limits();
    let size = 4 * limits.words;
    count % size == 0 && count <= size * limits.objects as usize
}

/// What the table of a guest with `code` words of code says.
#[tactic(auto, unfolding(crate::specs::Table::table_at))]
pub fn table(alloc: Global, code: u32, bytes: &[u8]) -> Result<TableParts, ElfErr>
    requires { code ≤ most_code_words }
    ensures { YieldsOrRefuses (λ t. record { form = t.form; entries = t.entries.items; words = t.words.items }) result (table_at code bytes.now) }
{
    let (number, rest) = form(bytes)?;
    let form = form_of(number);
    let (count, rest) = threads(form, rest)?;
    let (entries, rest) = entries(alloc, count, code, rest)?;
    if !are_objects(form, rest.len()) {
        return Err(ElfErr::Refused(Refusal::Table));
    }
    let words = words_of(alloc, rest)?;
    Ok(TableParts {
        form,
        entries,
        words,
    })
}

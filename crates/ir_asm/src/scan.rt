//! What the lines of a source have so far.

ghost use Rattle.std.specs.Prelude.{◌≡◌, ◌+◌, ◌++◌, [], ◌∷◌, nat_le, not, ◌==◌, flat_map, Ok, IfOk, OnOk};
ghost use Rattle.byteorder.specs.Endian.{little_bytes};
ghost use Rattle.ir_image.specs.Guest.{memory_size};
ghost use Rattle.ir_asm.specs.Forms.{stated};
ghost use Rattle.ir_asm.specs.Source.{nothing_seen, here, grown_segment, statement_size, laid_out, placed_at_label, entered_line, begun_line, with_source_item, with_labels};
ghost use Rattle.ir_asm.specs.declared.item.Item.TheVariants.{Entry};
ghost use Rattle.ir_asm.specs.Faults.{MakesOrFaults, fault_unless};
ghost use Rattle.ir_asm.specs.declared.cause.Cause.TheVariants.{BadSize};

use crate::cause::Cause;
use crate::form::Section;
use crate::item::{ByteList, Item, Name, Place, Placed};
use crate::labels::Labels;
use crate::refusal::Refusal;
use crate::table::stated;
use byteorder::{ByteOrder, LittleEndian};
use ir_image::{CODE_START, ImageForm, MEMORY_SIZE, MEMORY_START, MOST_CODE_WORDS};
use std::alloc::{AllocError, Global};
use std::marker::Model;
use std::mem::size_of_val;

// The most bytes of a section: of data as many as private memory has, and as many of code.
const MOST_BYTES: u32 = MEMORY_SIZE;

const _: () = prove!(4 * MOST_CODE_WORDS == MOST_BYTES);

/// How many bytes a section has.
#[derive(Clone, Copy)]
pub struct Size {
    pub bytes: u32,
}

impl Model for Size {
    ghost use Rattle.std.specs.Prelude.{ℕ, ◌≤◌};
    ghost use Rattle.ir_image.specs.Guest.{memory_size};

    ghost Value = { ℕ };

    ghost view = { λ s. s.bytes };

    ghost inverse = { λ n. record { bytes = n } };

    ghost invariant = { λ s. s.bytes ≤ memory_size };
}

impl Size {
    // The size with `bytes` bytes more, if they fit.
    fn plus(self, bytes: usize) -> Result<Size, Cause>
        ensures { result ≡ fault_unless (nat_le (self + bytes) memory_size) BadSize (Ok (self + bytes)) }
    {
        if bytes > (MOST_BYTES - self.bytes) as usize {
            return Err(Cause::BadSize);
        }
        Ok(Size {
            bytes: self.bytes + bytes as u32,
        })
    }
}

/// The form of the image, once there is a statement, the section, the sizes of both, the numbers of threads
/// and of objects, the labels, and what is placed.
#[derive(Drop)]
pub struct Scan {
    pub form: Option<ImageForm>,
    pub section: Section,
    pub code: Size,
    pub filled: Size,
    pub threads: u8,
    pub objects: u32,
    pub labels: Labels,
    pub placed: Vec<Placed>,
}

impl Model for Scan {
    ghost use Rattle.ir_asm.specs.Source.{Seen};

    ghost Value = { Seen };

    ghost view = { λ s. record { form = s.form; section = s.section; code = s.code; filled = s.filled; threads = s.threads; objects = s.objects; labels = s.labels; placed = s.placed.items } };
}

// How many bytes an item takes of its section.
fn size_of(item: &Item) -> usize
    ensures { result ≡ statement_size item.now }
{
    match item {
        Item::Code(list) => size_of_val(list.words.as_slice()),
        Item::BranchTo(_, _, _, _) | Item::JumpTo(_, _) => 4,
        Item::LoadAddress(_, _) => 8,
        Item::Filled(list) => list.bytes.len(),
        _ => 0,
    }
}

fn put_word(bytes: &mut Vec<u8>, word: u32) -> Result<(), AllocError>
    ensures { OnOk result (bytes.new.items ≡ bytes.old.items ++ little_bytes 4 word) }
{
    let mut four = [0; 4];
    LittleEndian::write_u32(&mut four, word);
    bytes.extend_from_slice(&four)
}

// The bytes of words, the lowest first.
fn bytes_of(alloc: Global, words: &[u32]) -> Result<ByteList, AllocError>
    ensures { IfOk result (λ b. b ≡ flat_map (little_bytes 4) words.now) }
{
    let mut bytes = Vec::new(alloc);
    for word in words {
        put_word(&mut bytes, *word)?;
    }
    Ok(ByteList { bytes })
}

// Words in data are bytes.
fn laid(alloc: Global, section: Section, item: Item) -> Result<Item, AllocError>
    ensures { IfOk result (λ i. i ≡ laid_out section item) }
{
    match (section, item) {
        (Section::Data, Item::Code(list)) => {
            Ok(Item::Filled(bytes_of(alloc, list.words.as_slice())?))
        }
        (_, item) => Ok(item),
    }
}

impl Scan {
    /// Before the first line.
    pub fn new(alloc: Global) -> Scan
        ensures { result ≡ nothing_seen }
    {
        Scan {
            form: None,
            section: Section::Text,
            code: Size { bytes: 0 },
            filled: Size { bytes: 0 },
            threads: 0,
            objects: 0,
            labels: Labels::new(alloc),
            placed: Vec::new(alloc),
        }
    }

    /// Whether there is any code.
    pub fn has_code(&self) -> bool
        ensures { result ≡ not (self.now.code == 0) }
    {
        self.code.bytes != 0
    }

    /// The form of the image, as the statements so far say.
    pub fn image_form(&self) -> ImageForm
        ensures { result ≡ stated self.now.form }
    {
        stated(self.form)
    }

    /// There is a statement, which says the form of the image.
    pub fn begin(&mut self)
        ensures { self.new ≡ begun_line self.old }
    {
        self.form = Some(self.image_form());
    }

    /// Where the next byte of the section lies.
    pub fn here(&self) -> Place
        ensures { result ≡ here self.now }
    {
        let address = match self.section {
            Section::Text => CODE_START + self.code.bytes,
            Section::Data => MEMORY_START + self.filled.bytes,
        };
        Place {
            section: self.section,
            address,
        }
    }

    // After a statement that takes `bytes` bytes of a section.
    fn grow(&mut self, section: Section, bytes: usize) -> Result<(), Refusal>
        ensures { MakesOrFaults self.new result (grown_segment section bytes self.old) }
    {
        match section {
            Section::Text => self.code = self.code.plus(bytes)?,
            Section::Data => self.filled = self.filled.plus(bytes)?,
        }
        Ok(())
    }

    // One more item that waits for the second pass.
    fn place(&mut self, line: usize, address: u32, item: Item) -> Result<(), AllocError>
        ensures { OnOk result (self.new ≡ placed_at_label line address item self.old) }
    {
        self.placed.push(Placed {
            line,
            address,
            item,
        })?;
        Ok(())
    }

    // One more thread, whose entry waits for the second pass.
    fn place_entry(&mut self, line: usize, address: u32, label: Name) -> Result<(), Refusal>
        ensures { MakesOrFaults self.new result (entered_line line address (Entry label) self.old) }
    {
        if self.threads >= self.image_form().limits().threads {
            return Err(Refusal::Faulty(Cause::BadCount));
        }
        self.threads += 1;
        self.place(line, address, Item::Entry(label))?;
        Ok(())
    }

    // After what an item says.
    fn enter(&mut self, line: usize, address: u32, item: Item) -> Result<(), Refusal>
        ensures { MakesOrFaults self.new result (entered_line line address item self.old) }
    {
        match item {
            Item::Enlarged => self.form = Some(ImageForm::Large),
            Item::Within(section) => self.section = section,
            Item::Count(objects) => self.objects = objects,
            Item::Entry(label) => return self.place_entry(line, address, label),
            Item::Nothing => {}
            _ => self.place(line, address, item)?,
        }
        Ok(())
    }

    /// After an item: first its size, then what it says.
    pub fn with_item(&mut self, alloc: Global, line: usize, item: Item) -> Result<(), Refusal>
        ensures { MakesOrFaults self.new result (with_source_item line item self.old) }
    {
        let address = self.here().address;
        let section = self.section;
        self.grow(section, size_of(&item))?;
        let item = laid(alloc, section, item)?;
        self.enter(line, address, item)
    }

    /// After a label, of whose name there may be one already.
    pub fn with_label(&mut self, alloc: Global, label: &[u8]) -> Result<(), Refusal>
        ensures { MakesOrFaults self.new result (with_labels (label.now ∷ []) self.old) }
    {
        if self.labels.get(label).is_some() {
            return Err(Refusal::Faulty(Cause::LabelTwice));
        }
        let place = self.here();
        self.labels.insert(alloc, label, place)?;
        Ok(())
    }
}

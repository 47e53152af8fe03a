//! The words that name a file of names, and the others.

ghost use Rattle.std.specs.Prelude.{◌≡◌, [], ◌∷◌, ◌++◌, drop, fold, true, false, IfOk, MatchOption, OnOk, map, option_map};
ghost use Rattle.std.specs.String.{string_bytes};
ghost use Rattle.ir_names.specs.Words.{has_file, split_word, split_words};

use std::alloc::{AllocError, Global};
use std::marker::Model;

/// Words, those about a file of names apart from the others.
#[derive(Drop)]
pub struct NamesSplit<'a> {
    file: Option<&'a str>,
    others: Vec<String>,
    // Whether the next word is the file.
    takes: bool,
    // Whether no later word is an option.
    places: bool,
    // Whether a file was named before another.
    twice: bool,
}

impl<'a> Model for NamesSplit<'a> {
    ghost use Rattle.std.specs.Prelude.{map, option_map};
    ghost use Rattle.std.specs.String.{string_bytes};
    ghost use Rattle.ir_names.specs.Words.{NamesSplit};

    ghost Value = { NamesSplit };

    ghost view = { λ s. record { file = option_map (λ file. file.now) s.file; others = map string_bytes s.others.items; takes = s.takes; places = s.places; twice = s.twice } };
}

// Puts a word at the end of others.
fn push_word(alloc: Global, words: &mut Vec<String>, word: &str) -> Result<(), AllocError>
    ensures { OnOk result (map string_bytes words.new.items ≡ map string_bytes words.old.items ++ word.now ∷ []) }
{
    let word = String::from_str(alloc, word)?;
    words.push(word)?;
    Ok(())
}

// The file in a word, if it has one.
fn file_in(word: &str) -> Option<&str>
    ensures { MatchOption result (has_file word.now ≡ false) (λ file. (has_file word.now ≡ true) × (file.now ≡ drop 8 word.now)) }
{
    word.strip_prefix("--names=")
}

impl<'a> NamesSplit<'a> {
    ghost use Rattle.ir_names.specs.Words.{no_words, with_file, with_other, with_option, split_word, wants_names, only_file};

    // Before the first word.
    fn new(alloc: Global) -> NamesSplit<'a>
        ensures { result ≡ no_words }
    {
        NamesSplit {
            file: None,
            others: Vec::new(alloc),
            takes: false,
            places: false,
            twice: false,
        }
    }

    // Adds a word that is about no file of names.
    fn add_other(&mut self, alloc: Global, word: &str) -> Result<(), AllocError>
        ensures { OnOk result (self.new ≡ with_other self.old word.now) }
    {
        push_word(alloc, &mut self.others, word)
    }

    // Adds a file of names.
    fn add_file(&mut self, path: &'a str)
        ensures { self.new ≡ with_file self.old path.now }
    {
        self.twice = self.twice || self.file.is_some();
        self.file = Some(path);
        self.takes = false;
    }

    // Adds a word that may be an option.
    fn add_option(&mut self, alloc: Global, word: &'a str) -> Result<(), AllocError>
        ensures { OnOk result (self.new ≡ with_option self.old word.now) }
    {
        if word == "--names" {
            self.takes = true;
            return Ok(());
        }
        if let Some(path) = file_in(word) {
            self.add_file(path);
            return Ok(());
        }
        if word == "--" {
            self.places = true;
        }
        self.add_other(alloc, word)
    }

    // Adds the next word.
    fn add(&mut self, alloc: Global, word: &'a str) -> Result<(), AllocError>
        ensures { OnOk result (self.new ≡ split_word self.old word.now) }
    {
        if self.takes {
            self.add_file(word);
            Ok(())
        } else if self.places {
            self.add_other(alloc, word)
        } else {
            self.add_option(alloc, word)
        }
    }

    /// Whether a file of names is asked for.
    pub fn wants_names(&self) -> bool
        ensures { result ≡ wants_names self.now }
    {
        self.takes || self.file.is_some()
    }

    /// The file, if exactly one is named.
    pub fn only_file(&self) -> Option<&'a str>
        ensures { option_map (λ file. file.now) result ≡ only_file self.now }
    {
        if self.takes || self.twice {
            None
        } else {
            self.file
        }
    }

    /// The other words, of which the first is the program's name.
    pub fn others(&self) -> &[String]
        ensures { map string_bytes result.now ≡ self.now.others }
    {
        self.others.as_slice()
    }
}

// Adds these words, of which none is the program's name.
fn add_all<'a>(
    alloc: Global,
    split: &mut NamesSplit<'a>,
    words: &'a [String],
) -> Result<(), AllocError>
    ensures { OnOk result (split.new ≡ fold split_word split.old (map string_bytes words.now)) }
{
    for word in words {
        split.add(alloc, word.as_str())?;
    }
    Ok(())
}

/// The words, of which the first is the program's name, in two parts.
///
/// # Errors
/// Out of memory.
pub fn split_words(alloc: Global, words: &[String]) -> Result<NamesSplit<'_>, AllocError>
    ensures { IfOk result (λ split. split ≡ split_words (map string_bytes words.now)) }
{
    let mut split = NamesSplit::new(alloc);
    let Some((name, others)) = words.split_first() else {
        return Ok(split);
    };
    split.add_other(alloc, name.as_str())?;
    add_all(alloc, &mut split, others)?;
    Ok(split)
}

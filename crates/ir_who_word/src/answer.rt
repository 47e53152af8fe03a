//! What a question about a word of an object of a run is answered.

ghost use Rattle.std.specs.Prelude.{◌≡◌, ◌<◌, IfOk, IfErr};
ghost use Rattle.std.specs.String.{string_bytes};
ghost use Rattle.ir_image.specs.Guest.{object_words};
ghost use Rattle.ir_past.specs.Replies.{IsTextless};
ghost use Rattle.ir_who_word.specs.Lines.{IsLinesOf, IsWordAnswer, LacksWord};

use crate::lines::word_text;
use crate::object_word::ObjectWord;
use crate::question::Question;
use crate::walk::words;
use ir_fit::Fitted;
use ir_past::{Absent, AskErr};
use ir_who::versions_of;
use std::alloc::{AllocError, Global};

// The lines of the versions in which a word is another than before.
fn word_lines(alloc: Global, fitted: &Fitted, word: ObjectWord) -> Result<String, AllocError>
    requires { word.object < fitted.now.recorded.objects }
    ensures { IfOk result (λ s. IsLinesOf fitted.now word (string_bytes s)) }
{
    fitted.known();
    let rows = versions_of(alloc, fitted.trace(), word.object)?;
    let words = words(alloc, fitted, &rows, word)?;
    word_text(alloc, word.object, word.index, &words)
}

/// The lines that answer a question about a run.
///
/// # Errors
/// There is no such object or word, or memory ran out.
pub fn answer(alloc: Global, fitted: &Fitted, asked: &Question) -> Result<String, AskErr>
    ensures ok { IfOk result (λ s. IsWordAnswer asked.now fitted.now (string_bytes s)) }
    ensures fails { IfErr result (IsTextless (LacksWord asked.now fitted.now)) }
{
    fitted.known();
    if asked.object >= fitted.trace().objects() as u32 {
        return Err(AskErr::Absent(Absent::Object));
    }
    if asked.word >= fitted.image().object_words() as u32 {
        return Err(AskErr::Absent(Absent::Word));
    }
    let word = ObjectWord {
        object: asked.object as u8,
        index: asked.word as u8,
    };
    Ok(word_lines(alloc, fitted, word)?)
}

//! `ir who --word`: what is asked about a word of an object of a run, and its answer: how many versions the object has, and a line for each in
//! which the word is another than in the version before, with the write entry that made it and the step that put the word.

ghost use Rattle.ir_past.specs.Replies.{IsDoneWith};
ghost use Rattle.ir_who_word.specs.Lines.{IsWordAnswer, LacksWord};

use crate::answer::answer;
use crate::question::Question;
use ir_files::ExitStatus;
use ir_fit::Fitted;
use ir_opened::RunQuestion;
use ir_past::{Printed, put_bytes};
use ir_stream::Sink;
use std::alloc::Global;

impl RunQuestion for Question {
    ghost is_answer = { λ asked f. IsDoneWith (IsWordAnswer asked f) };

    ghost is_absent = { LacksWord };

    fn print<O: Sink>(&self, alloc: Global, fitted: &Fitted, out: &mut O) -> Printed {
        let text = answer(alloc, fitted, self)?;
        put_bytes(text.as_bytes(), out)?;
        Ok(ExitStatus::Done)
    }
}

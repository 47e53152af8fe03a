//! Laws of words, each the contract of a function without parameters.

ghost use Rattle.ir_object.specs.Standing.{WordsStand};
ghost use Rattle.ir_object.specs.Word.{OneWordEach, StepsOfWords};

/// Each word says one thing, and each thing is said by one word.
pub fn one_word_each()
    ensures { OneWordEach }
{}

/// What entries and leaves make of a word: a reader adds one inside, and as it leaves takes it to those who have left; a writer adds 1,
/// and leaves a word of the next version alone.
pub fn steps_of_words()
    ensures { StepsOfWords }
{}

/// The word says who may enter and leave, and changes with each step of a thread.
pub fn words_stand()
    ensures { WordsStand }
{}

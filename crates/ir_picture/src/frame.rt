//! What comes before and after the data of a picture.

ghost use Rattle.std.specs.Prelude.{◌≡◌, ◌++◌, [], codes, IfOk, OnOk};
ghost use Rattle.ir_picture.specs.Answers.{page_head, page_tail};

use crate::page::{HEAD_1, HEAD_2, TAIL_1, TAIL_2, TAIL_3, TAIL_4};
use std::alloc::{AllocError, Global};

/// What comes before the data of a picture, and after the rows of its stale writes.
#[derive(Drop)]
pub struct Frame {
    /// What comes before.
    pub before: Vec<u8>,
    /// What comes after, with the end of the data.
    pub after: Vec<u8>,
}

/// The frame of data alone, which is a line end.
///
/// # Errors
/// Out of memory.
pub fn data_frame(alloc: Global) -> Result<Frame, AllocError>
    ensures before { IfOk result (λ f. f.before.items ≡ []) }
    ensures after { IfOk result (λ f. f.after.items ≡ codes "\n]}\n") }
{
    Ok(Frame {
        before: Vec::new(alloc),
        after: Vec::from_slice(alloc, b"\n]}\n")?,
    })
}

// What a page has before its data.
fn page_head(alloc: Global) -> Result<Vec<u8>, AllocError>
    ensures { IfOk result (λ v. v.items ≡ page_head) }
{
    let mut text = Vec::from_slice(alloc, HEAD_1.as_bytes())?;
    text.extend_from_slice(HEAD_2.as_bytes())?;
    Ok(text)
}

// Adds four parts of a text.
fn push_four(
    text: &mut Vec<u8>,
    first: &str,
    second: &str,
    third: &str,
    last: &str,
) -> Result<(), AllocError>
    ensures { OnOk result (text.new.items ≡ text.old.items ++ (first.now ++ (second.now ++ (third.now ++ last.now)))) }
{
    text.extend_from_slice(first.as_bytes())?;
    text.extend_from_slice(second.as_bytes())?;
    text.extend_from_slice(third.as_bytes())?;
    text.extend_from_slice(last.as_bytes())?;
    Ok(())
}

// Adds what a page has after its data.
fn push_tail(text: &mut Vec<u8>) -> Result<(), AllocError>
    ensures { OnOk result (text.new.items ≡ text.old.items ++ page_tail) }
{
    push_four(text, TAIL_1, TAIL_2, TAIL_3, TAIL_4)
}

/// The frame of data in a page.
///
/// # Errors
/// Out of memory.
pub fn page_frame(alloc: Global) -> Result<Frame, AllocError>
    ensures before { IfOk result (λ f. f.before.items ≡ page_head) }
    ensures after { IfOk result (λ f. f.after.items ≡ codes "\n]}" ++ page_tail) }
{
    let before = page_head(alloc)?;
    let mut after = Vec::from_slice(alloc, b"\n]}")?;
    push_tail(&mut after)?;
    Ok(Frame { before, after })
}

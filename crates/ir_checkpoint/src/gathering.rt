//! What is kept of a state beside its pages.

ghost use Rattle.std.specs.Prelude.{◌≡◌, map, IfOk};
ghost use Rattle.std.specs.List.{All};
ghost use Rattle.ir_thread.specs.Frames.{frame_of};
ghost use Rattle.ir_checkpoint.specs.Gathered.{HasMemory};

use ir_cut::Cut;
use ir_object::Object;
use ir_thread::{Frame, Thread};
use std::alloc::{AllocError, Global};

pub fn frames(alloc: Global, threads: &[Thread]) -> Result<Vec<Frame>, AllocError>
    ensures value { IfOk result (λ frames. frames.items ≡ map frame_of threads.now) }
    ensures memories { IfOk result (λ _. All HasMemory threads.now) }
{
    let mut frames = Vec::with_capacity(alloc, threads.len())?;
    for thread in threads {
        frames.push(thread.frame()?)?;
    }
    Ok(frames)
}

pub fn copies(alloc: Global, objects: &[Object]) -> Result<Vec<Object>, AllocError>
    ensures { IfOk result (λ copies. copies.items ≡ objects.now) }
{
    let mut copies = Vec::with_capacity(alloc, objects.len())?;
    for object in objects {
        copies.push(object.copy())?;
    }
    Ok(copies)
}

pub fn cut_of(alloc: Global, threads: &[Thread]) -> Result<Cut, AllocError>
    ensures { IfOk result (λ cut. cut ≡ map (λ t. t.steps) threads.now) }
{
    let mut positions = Vec::with_capacity(alloc, threads.len())?;
    for thread in threads {
        positions.push(thread.steps())?;
    }
    Ok(Cut::new(positions))
}

//! What a walk over a recorded run goes by.

ghost use Rattle.std.specs.Prelude.{◌≡◌, IfOk};

use ir_cut::Cut;
use ir_fit::Fitted;
use ir_image::Code;
use ir_mach::MarkedCode;
use std::alloc::{AllocError, Global};

/// A recorded run, the ends of its threads, and its code.
#[derive(Clone, Copy)]
pub struct Route<'a> {
    /// Where memory comes from.
    pub alloc: Global,
    /// The guest with its trace.
    pub fitted: &'a Fitted,
    /// The last position of each thread.
    pub ends: &'a Cut,
    /// The guest's code, no word of which is marked.
    pub code: &'a MarkedCode<'a>,
}

/// The code, with no mark at any of its words.
///
/// # Errors
/// Out of memory.
pub fn unmarked<'a>(alloc: Global, code: &'a Code) -> Result<MarkedCode<'a>, AllocError>
    ensures { IfOk result (λ m. m.words ≡ code.now) }
{
    let marks = vec![in alloc; false; code.words().len()]?;
    MarkedCode::new(alloc, code, marks)
}

//! Private memory by its pages.

ghost use Rattle.std.specs.Prelude.{◌≡◌, ◌<◌, length};
ghost use Rattle.ir_mach.specs.Core.{memory_size};
ghost use Rattle.ir_mach.specs.Pages.{memory_pages, page_of, page_size};

use ir_mach::PAGE_SIZE;

// Page i of private memory.
pub fn page_in(memory: &[u8], i: usize) -> &[u8]
    requires below { i < memory_pages }
    requires size { length memory.now ≡ memory_size }
    ensures value { result.now ≡ page_of memory.now i }
    ensures size { length result.now ≡ page_size }
{
    let first = PAGE_SIZE * i;
    &memory[first..first + PAGE_SIZE]
}

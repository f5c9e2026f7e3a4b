//! The page of each choice in memory.

ghost use Rattle.std.specs.Prelude.{IfOk};
ghost use Rattle.helpdoc_engine.specs.Rendering.{IsPage, document_of_text, text_title};
ghost use Rattle.helpdoc_engine.specs.Sample.{sample_document, sample_title};

use crate::engines::AMPLE;
use helpdoc_engine::engine::{run_sample, run_text};
use helpdoc_engine::faults::Fault;
use helpdoc_engine::words::{Choice, Form};
use linked_list_allocator::LocalHeap;
use std::alloc::Global;
use watched::Watched;

/// What the runs read.
pub const INPUT: &[u8] = b"hello\n world\n";

/// The page of it on a console.
pub const PAGE: &[u8] = b"hello\nworld ";

/// The page of the sample application on a console.
pub const SAMPLE: &[u8] =
    b"Prints things\n\nUsage: app -v\n\nAvailable options:\n    -v, --verbose  Talk more\n";

// A text's page in memory. The engine's promises over ends with known bytes say which page it is.
fn text_page<'a>(
    heap: &'a LocalHeap,
    form: Form,
    input: &[u8],
) -> Result<Vec<u8, &'a LocalHeap>, Fault>
    ensures { IfOk result (λ page. IsPage text_title form (document_of_text input.now) page.items) }
{
    let mut reader = Watched::new(input);
    let mut writer = Watched::new(Vec::new(heap));
    run_text(heap, form, &mut reader, &mut writer)?;
    Ok(writer.into_inner())
}

// The sample's page in memory.
fn sample_page<'a>(heap: &'a LocalHeap, form: Form) -> Result<Vec<u8, &'a LocalHeap>, Fault>
    ensures { IfOk result (λ page. IsPage sample_title form (sample_document form) page.items) }
{
    let mut writer = Watched::new(Vec::new(heap));
    run_sample(heap, form, &mut writer)?;
    Ok(writer.into_inner())
}

/// Whether the page of a choice in memory is this one.
pub fn has_page(global: Global, choice: Choice, input: &[u8], want: &[u8]) -> bool {
    let Ok(heap) = LocalHeap::new(global, AMPLE) else {
        return false;
    };
    let page = match choice {
        Choice::Text(form) => text_page(&heap, form, input),
        Choice::Sample(form) => sample_page(&heap, form),
    };
    match page {
        Ok(page) => page.as_slice() == want,
        Err(_) => false,
    }
}

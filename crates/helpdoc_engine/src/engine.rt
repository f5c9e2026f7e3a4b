//! What the program does, over any reader and any writer.

ghost use Rattle.std.specs.Prelude.{◌≡◌, ◌≢◌, ◌↔◌, ◌⊎◌, IfOk, IfErr, OnOk, OnErr, IsErrOf, string_bytes};
ghost use Rattle.watched.specs.Calls.{GivesNoText, GivesText, Moves, ReadFails, WriteFails};
ghost use Rattle.watched.specs.Watched.{IsMarked, IsUnmarked, ReadsText, ReadsNoText};
ghost use Rattle.bpaf_doc.specs.Manpage.Page.{title_page};
ghost use Rattle.helpdoc_engine.specs.Rendering.{IsPage, document_of_text, text_title};
ghost use Rattle.helpdoc_engine.specs.Runs.{HasPage, WritesPage, WritesBeginning};
ghost use Rattle.helpdoc_engine.specs.Sample.{sample_document, sample_title};

use crate::faults::Fault;
use crate::sample::sample_page;
use crate::words::Form;
use bpaf_doc::buffer::Doc;
use bpaf_doc::console::MAX_WIDTH;
use bpaf_roff::roff::Roff;
use std::alloc::{AllocError, Allocator};
use watched::{Sink, Source, Watched};

// The section of a manual page for programs.
const SECTION: &str = "1";

/// Reads all that the reader has left, as one text, and writes its page and nothing more. The whole
/// page is made before the first write, so that an error other than `Write` leaves the writer as it
/// was.
///
/// `Read` comes exactly where the reader's mark is then set, since its last read failed, `Write`
/// exactly where the writer's is, since its last write failed or took none, and `NotUtf8` only where
/// all was read and is not a text. `Memory` comes only where an allocation failed, which no clause
/// can say. `Misplaced` never comes.
pub fn run_text<A: Allocator + Copy, R: Source, W: Sink>(
    alloc: A,
    form: Form,
    reader: &mut Watched<R>,
    writer: &mut Watched<W>,
) -> Result<(), Fault>
    requires reader { IsUnmarked reader.old }
    requires writer { IsUnmarked writer.old }

    // Over all streams: when each fault comes, and what it leaves.
    ensures read { IsErrOf result Fault.Read ↔ IsMarked reader.new }
    ensures write { IsErrOf result Fault.Write ↔ IsMarked writer.new }
    ensures not_misplaced { ¬ IsErrOf result Fault.Misplaced }
    ensures untouched { IfErr result (λ fault.
        fault ≢ Fault.Write → writer.new ≡ writer.old) }

    // Over all streams: which calls of theirs gave and took the bytes, and failed.
    ensures given { OnOk result (
        GivesText R.reads reader.old.end reader.new.end (λ input.
        HasPage text_title form (document_of_text input) (λ page.
        Moves W.writes writer.old.end page writer.new.end))) }
    ensures read_failed { IsErrOf result Fault.Read →
        (error : _) × ReadFails R.reads reader.old.end error reader.new.end }
    ensures write_failed { IsErrOf result Fault.Write →
        GivesText R.reads reader.old.end reader.new.end (λ input.
        HasPage text_title form (document_of_text input) (λ page.
        (error : _) × WriteFails W.writes writer.old.end page error writer.new.end)) }
    ensures no_text { IsErrOf result Fault.NotUtf8 →
        GivesNoText R.reads reader.old.end reader.new.end }

    // Over streams with known bytes: which are read and written.
    ensures ok { OnOk result (
        ReadsText (R.remaining reader.old.end) (R.remaining reader.new.end) (λ input.
        WritesPage text_title form (document_of_text input)
        (W.contents writer.old.end) (W.contents writer.new.end))) }
    ensures cut_short { IsErrOf result Fault.Write →
        ReadsText (R.remaining reader.old.end) (R.remaining reader.new.end) (λ input.
        WritesBeginning text_title form (document_of_text input)
        (W.contents writer.old.end) (W.contents writer.new.end)) }
    ensures not_utf8 { IsErrOf result Fault.NotUtf8 →
        ReadsNoText (R.remaining reader.old.end) (R.remaining reader.new.end) }
{
    let input = reader.read_text(alloc)?;
    let page = page_of(alloc, form, input)?;
    writer.write_all(page.as_bytes()).map_err(|_| Fault::Write)
}

/// Writes the page of the sample application and nothing more. The whole page is made before the
/// first write, so that `Memory` leaves the writer as it was.
///
/// `Write` comes exactly where the writer's mark is then set, since its last write failed or took
/// none, and `Memory` only where an allocation failed, which no clause can say. No other fault comes.
pub fn run_sample<A: Allocator + Copy, W: Sink>(
    alloc: A,
    form: Form,
    writer: &mut Watched<W>,
) -> Result<(), Fault>
    requires { IsUnmarked writer.old }

    // Over all streams: when each fault comes, and what it leaves.
    ensures write { IsErrOf result Fault.Write ↔ IsMarked writer.new }
    ensures fault { IfErr result (λ fault. (fault ≡ Fault.Write) ⊎ (fault ≡ Fault.Memory)) }
    ensures untouched { IfErr result (λ fault.
        fault ≢ Fault.Write → writer.new ≡ writer.old) }

    // Over all streams: which calls of the writer took the bytes, and failed.
    ensures taken { OnOk result (
        HasPage sample_title form (sample_document form) (λ page.
        Moves W.writes writer.old.end page writer.new.end)) }
    ensures write_failed { IsErrOf result Fault.Write →
        HasPage sample_title form (sample_document form) (λ page.
        (error : _) × WriteFails W.writes writer.old.end page error writer.new.end) }

    // Over streams with known bytes: which are written.
    ensures ok { OnOk result (
        WritesPage sample_title form (sample_document form)
        (W.contents writer.old.end) (W.contents writer.new.end)) }
    ensures cut_short { IsErrOf result Fault.Write →
        WritesBeginning sample_title form (sample_document form)
        (W.contents writer.old.end) (W.contents writer.new.end) }
{
    let text = sample_page(alloc, form)?;
    writer.write_all(text.as_bytes()).map_err(|_| Fault::Write)
}

// The page of the document of one text.
fn page_of<A: Allocator + Copy>(
    alloc: A,
    form: Form,
    text: String<A>,
) -> Result<String<A>, AllocError>
    ensures { IfOk result (λ page.
        IsPage text_title form (document_of_text (string_bytes text)) (string_bytes page)) }
{
    let document = Doc::from_string(text)?;
    match form {
        Form::Full => document.render_console(alloc, true, MAX_WIDTH),
        Form::Brief => document.render_console(alloc, false, MAX_WIDTH),
        Form::Html => document.render_html(alloc, true, false),
        Form::Markdown => document.render_markdown(alloc, true),
        Form::Man => document.into_roff(titled(alloc)?),
    }
}

// A manual page that has its title line and nothing else.
fn titled<A: Allocator + Copy>(alloc: A) -> Result<Roff<A>, AllocError>
    ensures { IfOk result (λ page. page ≡ title_page text_title) }
{
    let mut page = Roff::new(alloc);
    page.append_control("TH", &["helpdoc", SECTION, "-", "-", ""])?;
    Ok(page)
}

//! Laws of the definitions that the contracts cite: statements that the check proves, not functions to call.

ghost use Rattle.bpaf_doc.specs.Console.Ink.{FullInkIsBackquotedInk, FullInkIsDocumentInk};
ghost use Rattle.bpaf_doc.specs.Laws.{IsExactPageLayout, IsExactHtmlPage, IsExactHtmlText};
ghost use Rattle.bpaf_doc.specs.Splitter.Promises.{EachTextIsSpelledOnce, ChunksKeepInk, ChunksAreLines};
ghost use Rattle.bpaf_doc.specs.Splitter.Promises.{ChunksStandInOrder, ChunksAreTexts};
ghost use Rattle.bpaf_doc.specs.Buffer.Equality.{IsEqualityOfParts};
ghost use Rattle.bpaf_doc.specs.Manpage.Reader.{IsReadInOneWay};
ghost use Rattle.bpaf_doc.specs.Manpage.Page.{TitlePageTakesDocument, TitledPageIsManualPage};

/// Each text is spelled by exactly one list of chunks, the one that `split` gives.
pub fn one_spelling()
    ensures { EachTextIsSpelledOnce }
{}

/// Together the chunks of a text have its ink, in order.
#[tactic(auto, using(crate::proofs::lemmas::Splitter::Facts::ink_of_chunks))]
pub fn chunks_keep_ink()
    ensures { ChunksKeepInk }
{}

/// No chunk has a newline in it.
#[tactic(auto, using(crate::proofs::lemmas::Splitter::Facts::one_line_chunks))]
pub fn chunks_are_lines()
    ensures { ChunksAreLines }
{}

/// Each chunk has a place in the text, in order: a Raw is the slice there, or a blank that stands for a newline there.
#[tactic(auto, using(crate::proofs::lemmas::Splitter::Facts::chunks_in_order))]
pub fn chunks_stand_in_order()
    ensures { ChunksStandInOrder }
{}

/// Each Raw of a UTF-8 text is UTF-8.
#[tactic(auto, using(crate::proofs::lemmas::Splitter::Facts::text_chunks))]
pub fn chunks_are_texts()
    ensures { ChunksAreTexts }
{}

/// Two documents are equal exactly where they have the same parts.
#[tactic(auto, using(crate::proofs::lemmas::Buffer::Equality::equality_of_parts))]
pub fn equality_of_parts()
    ensures { IsEqualityOfParts }
{}

/// A roff text is read as at most one list of events.
#[tactic(auto, using(crate::proofs::lemmas::Manpage::OneReading::one_reading))]
pub fn one_reading()
    ensures { IsReadInOneWay }
{}

/// A page that holds only a title line takes a document, and is then a manual page with that title.
#[tactic(auto, using(crate::proofs::lemmas::Manpage::PageRead::title_page_takes_document, crate::proofs::lemmas::Manpage::PageRead::titled_page_is_manual_page))]
pub fn titled_page()
    ensures takes { TitlePageTakesDocument }
    ensures manual { TitledPageIsManualPage }
{}

/// The console page as a function of the document has the ink of what is shown, with its backquotes, and is a layout of
/// the document, for each of UTF-8 texts and fewer than 2^59 parts, as each `Doc` is.
pub fn laws_of_exact_page()
    ensures { IsExactPageLayout }
{}

/// For a document of UTF-8 texts, as each `Doc` is, a console text in full has the ink of the document's texts, in
/// order, with a backquote in place of each mark of a term reference. Without such marks it is exactly the document's
/// ink.
#[tactic(auto, using(crate::proofs::lemmas::Console::InFull::backquoted, crate::proofs::lemmas::Console::InFull::own))]
pub fn ink_in_full()
    ensures backquoted { FullInkIsBackquotedInk }
    ensures own { FullInkIsDocumentInk }
{}

/// The HTML page as a function of the document is well nested, with the document's tags and breaks, where the document
/// is well nested. For each document it erases to the HTML text.
#[tactic(auto, using(crate::proofs::lemmas::Html::Exact::page_laws, crate::proofs::lemmas::Html::Exact::page_words))]
pub fn laws_of_exact_html()
    ensures page { IsExactHtmlPage }
    ensures text { IsExactHtmlText }
{}

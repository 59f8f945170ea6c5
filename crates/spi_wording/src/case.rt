// What is explained.
use crate::find::head_at;
use crate::source::Source;
use spi_explain::Explained;
use spi_scope::File;
use spi_text::Span;

/// A file whose process is explained: its bytes, what they spell, and what is found of it.
#[derive(Drop)]
pub struct Case<'a> {
    pub source: &'a Source<'a>,
    pub file: &'a File,
    pub found: &'a Explained,
}

/// Where the first word of a node stands.
pub fn node_span(case: &Case<'_>, node: u32) -> Span {
    head_at(case.source, case.file.process_place(node).from)
}

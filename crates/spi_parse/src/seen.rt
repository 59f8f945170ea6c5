//! Tokens as they are seen.

use spi_lex::{Kind, Mark, Reserved};
use spi_text::Span;

/// What a token is, whose word is left where it stands.
#[derive(Clone, Copy)]
pub enum Seen<'t> {
    Word(&'t str),
    Reserved(Reserved),
    Number(u32),
    Mark(Mark),
}

/// A token as it is seen.
#[derive(Clone, Copy)]
pub struct Lexeme<'t> {
    pub kind: Seen<'t>,
    pub span: Span,
}

// Which tokens could stand where the syntax of a file breaks off.
ghost use Rattle.std.specs.Prelude.{◌≤◌, length};

use crate::NoMemory;
use crate::find::begins_process;
use crate::page::{Kind, Page};
use crate::source::Source;
use spi_expected::expected_in;
use spi_lex::{Kind as TokenKind, Mark, Reserved};

/// How many bytes a file has at most of which it is told: each kind of token is tried by a reading of all that stands before.
const MOST: usize = 65_536;

fn has_word(kinds: &[TokenKind], wanted: Reserved) -> bool {
    kinds.iter().any(|kind| match kind {
        TokenKind::Reserved(word) => *word == wanted,
        _ => false,
    })
}

// The token is one of those that begin a process or a message or a type, where these are told as one.
fn is_told(kind: &TokenKind, process: bool, message: bool, ty: bool) -> bool {
    match kind {
        TokenKind::Reserved(Reserved::Inl | Reserved::Inr | Reserved::Hash) => message,
        TokenKind::Reserved(Reserved::Un | Reserved::Key | Reserved::Nonce) => ty,
        TokenKind::Reserved(word) => process && begins_process(*word),
        TokenKind::Mark(Mark::ParenOpen) => process || message || ty,
        TokenKind::Mark(Mark::BraceOpen) => message,
        TokenKind::Word(_) => message || ty,
        _ => false,
    }
}

// One more in the list.
fn put_item(page: &mut Page, is_first: &mut bool, text: &str) {
    if !*is_first {
        page.put(", ");
    }
    *is_first = false;
    page.put(text);
}

fn put_spelled(page: &mut Page, is_first: &mut bool, text: &str) {
    put_item(page, is_first, "`");
    page.put(text);
    page.put("`");
}

fn put_word(page: &mut Page, is_first: &mut bool, word: &str) {
    if word == "x" {
        put_item(page, is_first, "a name");
    } else if word == "ProcStop" {
        put_item(page, is_first, "a rule's name");
    } else {
        put_spelled(page, is_first, word);
    }
}

fn put_kind(page: &mut Page, is_first: &mut bool, kind: &TokenKind) {
    match kind {
        TokenKind::Word(word) => put_word(page, is_first, word.as_str()),
        TokenKind::Reserved(word) => put_spelled(page, is_first, word.spelled()),
        TokenKind::Mark(mark) => put_spelled(page, is_first, mark.spelled()),
        TokenKind::Number(0) => put_item(page, is_first, "a number"),
        TokenKind::Number(_) => {}
    }
}

// The list of what could stand there.
fn put_kinds(page: &mut Page, kinds: &[TokenKind]) {
    let process = has_word(kinds, Reserved::Stop);
    let message = has_word(kinds, Reserved::Inl);
    let ty = has_word(kinds, Reserved::Nonce);
    let mut is_first = true;
    if process {
        put_item(page, &mut is_first, "a process");
    }
    if message {
        put_item(page, &mut is_first, "a message");
    }
    if ty {
        put_item(page, &mut is_first, "a type");
    }
    for kind in kinds {
        if !is_told(kind, process, message, ty) {
            put_kind(page, &mut is_first, kind);
        }
    }
}

/// What could stand where the syntax of these bytes breaks off. Nothing is told of a file of more than 65,536 bytes.
pub fn tell_expected(page: &mut Page, source: &Source<'_>, bytes: &[u8]) -> Result<(), NoMemory>
    requires { length bytes.now ≤ 16_777_216 }
{
    if bytes.len() > MOST {
        return Ok(());
    }
    if let Some(kinds) = expected_in(page.alloc(), bytes)? {
        page.open(Kind::Note, None);
        if kinds.is_empty() {
            page.put("nothing could stand here but the end of the file");
        } else {
            page.put("here could stand: ");
            put_kinds(page, &kinds);
        }
        page.close(source, None);
    }
    Ok(())
}

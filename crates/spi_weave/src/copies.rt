//! Equal messages, types and declarations.

ghost use Rattle.std.specs.Prelude.{◌≡◌, map, IfOk};
ghost use Rattle.spi_tree.specs.Views.{msg_of, ty_of, decl_of};

use crate::NoMemory;
use spi_text::Text;
use spi_tree::{Decl, SMsg, STy, SWord};
use std::alloc::Global;

/// The same word.
pub fn word(alloc: Global, w: &SWord) -> Result<SWord, NoMemory>
    ensures { IfOk result (λ r. r ≡ w.now) }
{
    Ok(SWord {
        word: Text::of(alloc, w.word.as_str())?,
        span: w.span,
    })
}

fn words(alloc: Global, ws: &[SWord]) -> Result<Vec<SWord>, NoMemory>
    ensures { IfOk result (λ r. r.items ≡ ws.now) }
{
    let mut all = Vec::new(alloc);
    for w in ws {
        all.push(word(alloc, w)?)?;
    }
    Ok(all)
}

/// An equal message. The two share their parts.
pub fn message<'b>(alloc: Global, m: &SMsg<'b>) -> Result<SMsg<'b>, NoMemory>
    ensures { IfOk result (λ r. msg_of r ≡ msg_of m.now) }
{
    Ok(match m {
        SMsg::Name { to, word } => SMsg::Name {
            to: *to,
            word: Text::of(alloc, word.as_str())?,
        },
        SMsg::Placed { name } => SMsg::Placed { name: *name },
        SMsg::Unit { span } => SMsg::Unit { span: *span },
        SMsg::Tuple { parts, span } => SMsg::Tuple {
            parts: *parts,
            span: *span,
        },
        SMsg::Inl { part, span } => SMsg::Inl {
            part: *part,
            span: *span,
        },
        SMsg::Inr { part, span } => SMsg::Inr {
            part: *part,
            span: *span,
        },
        SMsg::Enc { parts, span } => SMsg::Enc {
            parts: *parts,
            span: *span,
        },
        SMsg::Hash { part, span } => SMsg::Hash {
            part: *part,
            span: *span,
        },
        SMsg::Num { number, span } => SMsg::Num {
            number: *number,
            span: *span,
        },
    })
}

/// An equal type. The two share their parts.
pub fn ty<'b>(alloc: Global, a: &STy<'b>) -> Result<STy<'b>, NoMemory>
    ensures { IfOk result (λ r. ty_of r ≡ ty_of a.now) }
{
    Ok(match a {
        STy::Un { span } => STy::Un { span: *span },
        STy::Unit { span } => STy::Unit { span: *span },
        STy::Tuple { parts, span } => STy::Tuple {
            parts: *parts,
            span: *span,
        },
        STy::Sum { parts, span } => STy::Sum {
            parts: *parts,
            span: *span,
        },
        STy::Key { part, span } => STy::Key {
            part: *part,
            span: *span,
        },
        STy::Nonce { effect, span } => STy::Nonce {
            effect: *effect,
            span: *span,
        },
        STy::Abbr { to, word } => STy::Abbr {
            to: *to,
            word: Text::of(alloc, word.as_str())?,
        },
        STy::Placed { name } => STy::Placed { name: *name },
    })
}

fn declaration<'b>(alloc: Global, d: &Decl<'b>) -> Result<Decl<'b>, NoMemory>
    ensures { IfOk result (λ r. decl_of r ≡ decl_of d.now) }
{
    Ok(match d {
        Decl::Free { first, more, span } => Decl::Free {
            first: word(alloc, first)?,
            more: words(alloc, more)?,
            span: *span,
        },
        Decl::Abbr { name, ty: a, span } => Decl::Abbr {
            name: word(alloc, name)?,
            ty: ty(alloc, a)?,
            span: *span,
        },
    })
}

/// Equal declarations, in the same order.
pub fn declarations<'b>(alloc: Global, ds: &[Decl<'b>]) -> Result<Vec<Decl<'b>>, NoMemory>
    ensures { IfOk result (λ r. map decl_of r.items ≡ map decl_of ds.now) }
{
    let mut all = Vec::new(alloc);
    for d in ds {
        all.push(declaration(alloc, d)?)?;
    }
    Ok(all)
}

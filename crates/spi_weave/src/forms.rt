//! The process forms that lines make.

ghost use Rattle.std.specs.Prelude.{◌≡◌, true, IfOk};
ghost use Rattle.spi_tree.specs.Trees as t;
ghost use Rattle.spi_tree.specs.Views.{msg_of, ty_of, proc_of};
ghost use Rattle.spi_narrate.specs.Views.{prefix_of};
ghost use Rattle.spi_weave.specs.Woven.{prefixed, name_spelled, sent, received};

use crate::NoMemory;
use crate::copies::{message, ty, word};
use spi_heading::Named;
use spi_narrate::Prefix;
use spi_text::Span;
use spi_tree::{
    CastParts, CheckParts, DecryptParts, EventParts, InpParts, MatchParts, NewParts, OutThenParts,
    Room, SMsg, SProc, STy, SWord, SplitParts, named,
};
use std::alloc::Global;

/// A process, or memory ran out.
type Made<'b> = Result<SProc<'b>, NoMemory>;

/// A form that is to be made: the process that follows it, and where it stands.
#[derive(Drop)]
pub struct Form<'b> {
    alloc: Global,
    then: SProc<'b>,
    span: Span,
}

impl<'b> Form<'b> {
    /// A form at `span`, before the process that follows.
    pub fn before(alloc: Global, then: SProc<'b>, span: Span) -> Form<'b>
        ensures follows { result.then ≡ then.entry }
        ensures place { result.span ≡ span }
    {
        Form { alloc, then, span }
    }

    fn split(self, whole: &SMsg<'b>, left: &Named<'b>, right: &Named<'b>) -> Made<'b>
        ensures { IfOk result
            (λ p. proc_of p
            ≡ t.split self.entry.span (msg_of whole.now) left.now.name (ty_of left.now.ty.value)
            right.now.name
            (ty_of right.now.ty.value) (proc_of self.entry.then)) }
    {
        let parts = SplitParts {
            whole: message(self.alloc, whole)?,
            left: word(self.alloc, &left.name)?,
            left_ty: ty(self.alloc, &left.ty)?,
            right: word(self.alloc, &right.name)?,
            right_ty: ty(self.alloc, &right.ty)?,
            then: self.then,
        };
        Ok(SProc::Split {
            parts: Box::new(self.alloc, parts)?,
            span: self.span,
        })
    }

    fn select(
        self,
        whole: &SMsg<'b>,
        left: &Named<'b>,
        equal: &SMsg<'b>,
        right: &Named<'b>,
    ) -> Made<'b>
        ensures { IfOk result
            (λ p. proc_of p
            ≡ t.match self.entry.span (msg_of whole.now) left.now.name (ty_of left.now.ty.value)
            (msg_of equal.now)
            right.now.name (ty_of right.now.ty.value) (proc_of self.entry.then)) }
    {
        let parts = MatchParts {
            whole: message(self.alloc, whole)?,
            left: word(self.alloc, &left.name)?,
            left_ty: ty(self.alloc, &left.ty)?,
            equal: message(self.alloc, equal)?,
            right: word(self.alloc, &right.name)?,
            right_ty: ty(self.alloc, &right.ty)?,
            then: self.then,
        };
        Ok(SProc::Match {
            parts: Box::new(self.alloc, parts)?,
            span: self.span,
        })
    }

    fn decrypt(self, whole: &SMsg<'b>, bound: &Named<'b>, key: &SMsg<'b>) -> Made<'b>
        ensures { IfOk result
            (λ p. proc_of p
            ≡ t.decrypt self.entry.span (msg_of whole.now) bound.now.name (ty_of bound.now.ty.value)
            (msg_of key.now)
            (proc_of self.entry.then)) }
    {
        let parts = DecryptParts {
            whole: message(self.alloc, whole)?,
            name: word(self.alloc, &bound.name)?,
            ty: ty(self.alloc, &bound.ty)?,
            key: message(self.alloc, key)?,
            then: self.then,
        };
        Ok(SProc::Decrypt {
            parts: Box::new(self.alloc, parts)?,
            span: self.span,
        })
    }

    fn check(self, whole: &SMsg<'b>, nonce: &SMsg<'b>) -> Made<'b>
        ensures { IfOk result
            (λ p. proc_of p
            ≡ t.check self.entry.span (msg_of whole.now) (msg_of nonce.now) (proc_of self.entry.then)) }
    {
        let parts = CheckParts {
            whole: message(self.alloc, whole)?,
            nonce: message(self.alloc, nonce)?,
            then: self.then,
        };
        Ok(SProc::Check {
            parts: Box::new(self.alloc, parts)?,
            span: self.span,
        })
    }

    fn cast(self, whole: &SMsg<'b>, bound: &Named<'b>) -> Made<'b>
        ensures { IfOk result
            (λ p. proc_of p
            ≡ t.cast self.entry.span (msg_of whole.now) bound.now.name (ty_of bound.now.ty.value)
            (proc_of self.entry.then)) }
    {
        let parts = CastParts {
            whole: message(self.alloc, whole)?,
            name: word(self.alloc, &bound.name)?,
            ty: ty(self.alloc, &bound.ty)?,
            then: self.then,
        };
        Ok(SProc::Cast {
            parts: Box::new(self.alloc, parts)?,
            span: self.span,
        })
    }

    /// The parts of an event.
    fn event(self, label: &SMsg<'b>) -> Result<Box<EventParts<'b>>, NoMemory>
        ensures { IfOk result
            (λ parts. (msg_of parts.value.label ≡ msg_of label.now) × (parts.value.then ≡ self.entry.then)) }
    {
        let parts = EventParts {
            label: message(self.alloc, label)?,
            then: self.then,
        };
        Ok(Box::new(self.alloc, parts)?)
    }

    /// `new (x: T); P`
    pub fn new(self, name: &SWord, a: &STy<'b>) -> Made<'b>
        ensures { IfOk result
            (λ p. proc_of p ≡ t.new self.entry.span name.now (ty_of a.now) (proc_of self.entry.then)) }
    {
        let parts = NewParts {
            name: word(self.alloc, name)?,
            ty: ty(self.alloc, a)?,
            then: self.then,
        };
        Ok(SProc::New {
            parts: Box::new(self.alloc, parts)?,
            span: self.span,
        })
    }
}

/// The form that a line at `span` makes of a prefix, before the process that follows.
pub fn prefixed<'b>(alloc: Global, span: Span, prefix: &Prefix<'b>, then: SProc<'b>) -> Made<'b>
    ensures { IfOk result (λ p. proc_of p ≡ prefixed span (prefix_of prefix.now) (proc_of then.entry)) }
{
    let form = Form::before(alloc, then, span);
    match prefix {
        Prefix::Split {
            whole,
            left,
            right,
            ..
        } => form.split(whole, left, right),
        Prefix::Match {
            whole,
            left,
            equal,
            right,
            ..
        } => form.select(whole, left, equal, right),
        Prefix::Decrypt {
            whole,
            bound,
            key,
            ..
        } => form.decrypt(whole, bound, key),
        Prefix::Check { whole, nonce, .. } => form.check(whole, nonce),
        Prefix::Begin { label, .. } => Ok(SProc::Begin {
            parts: form.event(label)?,
            span,
        }),
        Prefix::End { label, .. } => Ok(SProc::End {
            parts: form.event(label)?,
            span,
        }),
        Prefix::EndMany { label, .. } => Ok(SProc::EndMany {
            parts: form.event(label)?,
            span,
        }),
        Prefix::Cast { whole, bound, .. } => form.cast(whole, bound),
        Prefix::New { bound, .. } => form.new(&bound.name, &bound.ty),
    }
}

fn spelled<'b>(room: Room<'b>, w: &SWord) -> Result<SMsg<'b>, NoMemory>
    ensures { IfOk result (λ m. msg_of m ≡ name_spelled w.now) }
{
    named(room, word(room.alloc, w)?)
}

/// The output of a sender, before the process that follows.
pub fn sent<'b>(
    room: Room<'b>,
    span: Span,
    channel: &SWord,
    datum: &SMsg<'b>,
    then: SProc<'b>,
) -> Made<'b>
    ensures { IfOk result
        (λ p. proc_of p ≡ sent true span channel.now (msg_of datum.now) (proc_of then.entry)) }
{
    let parts = OutThenParts {
        channel: spelled(room, channel)?,
        datum: message(room.alloc, datum)?,
        then,
    };
    Ok(SProc::OutThen {
        parts: Box::new(room.alloc, parts)?,
        span,
    })
}

/// The input of a receiver, before the process that follows.
pub fn received<'b>(
    room: Room<'b>,
    span: Span,
    channel: &SWord,
    name: &SWord,
    then: SProc<'b>,
) -> Made<'b>
    ensures { IfOk result (λ p. proc_of p ≡ received true span channel.now name.now (proc_of then.entry)) }
{
    let parts = InpParts {
        channel: spelled(room, channel)?,
        name: word(room.alloc, name)?,
        ty: STy::Un { span: name.span },
        then,
    };
    Ok(SProc::Inp {
        parts: Box::new(room.alloc, parts)?,
        span,
    })
}

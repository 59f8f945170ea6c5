// The parts of the nonce handshake as trees.
ghost use Rattle.std.specs.Prelude.{◌≡◌, [], ◌∷◌, map, codes, IfOk};
ghost use Rattle.spi_tree.specs.Trees as t;
ghost use Rattle.spi_tree.specs.Views.{msg_of, ty_of, last_of, proc_of, decl_of};
ghost use Rattle.spi_gen.specs.Handshake as H;

use crate::NoMemory;
use spi_text::{Span, Text};
use spi_tree::{
    BothParts, CastParts, CheckParts, Decl, DecryptParts, EncParts, EventParts, InpParts, Last,
    MsgParts, NewParts, OutParts, OutThenParts, Room, SAtom, SEffect, SMsg, SProc, STy, SWord,
    SplitParts, TyParts, abbreviated, named, placed, row,
};
use std::alloc::Global;

/// The empty span at 0: what is made here stands nowhere in a text.
pub const NOWHERE: Span = Span { from: 0, to: 0 };

fn word(alloc: Global, spelling: &str) -> Result<SWord, NoMemory>
    ensures { IfOk result (λ w. w ≡ H.word spelling.now) }
{
    Ok(SWord {
        word: Text::of(alloc, spelling)?,
        span: NOWHERE,
    })
}

fn name<'b>(room: Room<'b>, spelling: &str) -> Result<SMsg<'b>, NoMemory>
    ensures { IfOk result (λ m. msg_of m ≡ H.name spelling.now) }
{
    named(room, word(room.alloc, spelling)?)
}

fn tuple<'b>(
    room: Room<'b>,
    first: SMsg<'b>,
    second: SMsg<'b>,
    more: &'b [SMsg<'b>],
) -> Result<SMsg<'b>, NoMemory>
    ensures { IfOk result
        (λ m. msg_of m
        ≡ t.tuple t.nowhere (msg_of first.entry) (msg_of second.entry)
        (t.msgs_of_list (map msg_of more.entry.now))) }
{
    let parts = MsgParts {
        first,
        second,
        more,
    };
    Ok(SMsg::Tuple {
        parts: placed(room, parts)?,
        span: NOWHERE,
    })
}

fn pair<'b>(room: Room<'b>, first: &str, second: &str) -> Result<SMsg<'b>, NoMemory>
    ensures { IfOk result (λ m. msg_of m ≡ H.pair (H.name first.now) (H.name second.now)) }
{
    let first = name(room, first)?;
    tuple(room, first, name(room, second)?, &[])
}

fn label<'b>(room: Room<'b>) -> Result<SMsg<'b>, NoMemory>
    ensures { IfOk result (λ m. msg_of m ≡ H.label) }
{
    let mut more = Vec::new(room.alloc);
    more.push(name(room, "m")?)?;
    let first = name(room, "a")?;
    let second = name(room, "b")?;
    tuple(room, first, second, row(room, more)?)
}

fn untrusted<'b>() -> STy<'b>
    ensures { ty_of result ≡ H.untrusted_type }
{
    STy::Un { span: NOWHERE }
}

fn proof<'b>(room: Room<'b>) -> Result<STy<'b>, NoMemory>
    ensures { IfOk result (λ a. ty_of a ≡ H.proof) }
{
    let mut atoms = Vec::new(room.alloc);
    atoms.push(SAtom::End {
        label: label(room)?,
        span: NOWHERE,
    })?;
    let effect = SEffect {
        atoms: row(room, atoms)?,
    };
    Ok(STy::Nonce {
        effect: placed(room, effect)?,
        span: NOWHERE,
    })
}

fn pair_type<'b>(
    room: Room<'b>,
    name: SWord,
    first: STy<'b>,
    last: Last<'b>,
) -> Result<STy<'b>, NoMemory>
    ensures { IfOk result
        (λ a. ty_of a
        ≡ t.tuple_ty t.nowhere name (ty_of first.entry) t.no_fields (last_of last.entry)) }
{
    let parts = TyParts {
        name,
        first,
        more: &[],
        last,
    };
    Ok(STy::Tuple {
        parts: placed(room, parts)?,
        span: NOWHERE,
    })
}

fn answer<'b>(room: Room<'b>) -> Result<STy<'b>, NoMemory>
    ensures { IfOk result (λ a. ty_of a ≡ H.answer) }
{
    let last_name = placed(room, word(room.alloc, "n")?)?;
    let last = Last::Named(last_name, proof(room)?);
    pair_type(room, word(room.alloc, "m")?, untrusted(), last)
}

fn answer_name<'b>(room: Room<'b>) -> Result<STy<'b>, NoMemory>
    ensures { IfOk result (λ a. ty_of a ≡ H.answer_name) }
{
    abbreviated(room, word(room.alloc, "Msg")?)
}

// new (x: T); P
fn new_name<'b>(
    room: Room<'b>,
    spelling: &str,
    ty: STy<'b>,
    then: SProc<'b>,
) -> Result<SProc<'b>, NoMemory>
    ensures { IfOk result
        (λ p. proc_of p ≡ t.new t.nowhere (H.word spelling.now) (ty_of ty.entry) (proc_of then.entry)) }
{
    let parts = NewParts {
        name: word(room.alloc, spelling)?,
        ty,
        then,
    };
    Ok(SProc::New {
        parts: Box::new(room.alloc, parts)?,
        span: NOWHERE,
    })
}

// inp net (x: Un); P
fn input<'b>(room: Room<'b>, spelling: &str, then: SProc<'b>) -> Result<SProc<'b>, NoMemory>
    ensures { IfOk result
        (λ p. proc_of p
        ≡ t.inp t.nowhere H.net (H.word spelling.now) H.untrusted_type (proc_of then.entry)) }
{
    let parts = InpParts {
        channel: name(room, "net")?,
        name: word(room.alloc, spelling)?,
        ty: untrusted(),
        then,
    };
    Ok(SProc::Inp {
        parts: Box::new(room.alloc, parts)?,
        span: NOWHERE,
    })
}

// out net {(m, p)}k
fn reply<'b>(room: Room<'b>) -> Result<SProc<'b>, NoMemory>
    ensures { IfOk result
        (λ p. proc_of p
        ≡ t.out t.nowhere H.net
        (t.enc t.nowhere (H.pair (H.name (codes "m")) (H.name (codes "p"))) (H.name (codes "k")))) }
{
    let sealed = EncParts {
        body: pair(room, "m", "p")?,
        key: name(room, "k")?,
    };
    let parts = OutParts {
        channel: name(room, "net")?,
        datum: SMsg::Enc {
            parts: placed(room, sealed)?,
            span: NOWHERE,
        },
    };
    Ok(SProc::Out {
        parts: Box::new(room.alloc, parts)?,
        span: NOWHERE,
    })
}

fn answering<'b>(room: Room<'b>) -> Result<SProc<'b>, NoMemory>
    ensures { IfOk result (λ p. proc_of p ≡ H.answering) }
{
    let parts = CastParts {
        whole: name(room, "q")?,
        name: word(room.alloc, "p")?,
        ty: proof(room)?,
        then: reply(room)?,
    };
    let cast = SProc::Cast {
        parts: Box::new(room.alloc, parts)?,
        span: NOWHERE,
    };
    let parts = EventParts {
        label: label(room)?,
        then: cast,
    };
    let begin = SProc::Begin {
        parts: Box::new(room.alloc, parts)?,
        span: NOWHERE,
    };
    let new = new_name(room, "m", untrusted(), begin)?;
    input(room, "q", new)
}

fn checking<'b>(room: Room<'b>) -> Result<SProc<'b>, NoMemory>
    ensures { IfOk result (λ p. proc_of p ≡ H.checking) }
{
    let parts = EventParts {
        label: label(room)?,
        then: SProc::Stop { span: NOWHERE },
    };
    let end = SProc::End {
        parts: Box::new(room.alloc, parts)?,
        span: NOWHERE,
    };
    let parts = CheckParts {
        whole: name(room, "n")?,
        nonce: name(room, "p")?,
        then: end,
    };
    let check = SProc::Check {
        parts: Box::new(room.alloc, parts)?,
        span: NOWHERE,
    };
    let parts = SplitParts {
        whole: name(room, "x")?,
        left: word(room.alloc, "m")?,
        left_ty: untrusted(),
        right: word(room.alloc, "p")?,
        right_ty: proof(room)?,
        then: check,
    };
    Ok(SProc::Split {
        parts: Box::new(room.alloc, parts)?,
        span: NOWHERE,
    })
}

fn asking<'b>(room: Room<'b>) -> Result<SProc<'b>, NoMemory>
    ensures { IfOk result (λ p. proc_of p ≡ H.asking) }
{
    let parts = DecryptParts {
        whole: name(room, "c")?,
        name: word(room.alloc, "x")?,
        ty: answer_name(room)?,
        key: name(room, "k")?,
        then: checking(room)?,
    };
    let decrypt = SProc::Decrypt {
        parts: Box::new(room.alloc, parts)?,
        span: NOWHERE,
    };
    let parts = OutThenParts {
        channel: name(room, "net")?,
        datum: name(room, "n")?,
        then: input(room, "c", decrypt)?,
    };
    let out = SProc::OutThen {
        parts: Box::new(room.alloc, parts)?,
        span: NOWHERE,
    };
    new_name(room, "n", untrusted(), out)
}

/// One session of the handshake.
pub fn handshake<'b>(room: Room<'b>) -> Result<SProc<'b>, NoMemory>
    ensures { IfOk result (λ p. proc_of p ≡ H.handshake) }
{
    let parts = BothParts {
        first: answering(room)?,
        rest: asking(room)?,
    };
    let group = SProc::Group {
        parts: Box::new(room.alloc, parts)?,
        span: NOWHERE,
    };
    let key = STy::Key {
        part: placed(room, answer_name(room)?)?,
        span: NOWHERE,
    };
    new_name(room, "k", key, group)
}

/// The declarations of the handshake.
pub fn declarations<'b>(room: Room<'b>) -> Result<Vec<Decl<'b>>, NoMemory>
    ensures { IfOk result (λ v. map decl_of v.items ≡ H.declarations) }
{
    let mut more = Vec::new(room.alloc);
    more.push(word(room.alloc, "b")?)?;
    more.push(word(room.alloc, "net")?)?;
    let mut decls = Vec::new(room.alloc);
    decls.push(Decl::Free {
        first: word(room.alloc, "a")?,
        more,
        span: NOWHERE,
    })?;
    decls.push(Decl::Abbr {
        name: word(room.alloc, "Msg")?,
        ty: answer(room)?,
        span: NOWHERE,
    })?;
    Ok(decls)
}

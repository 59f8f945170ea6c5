//! Processes.

ghost use Rattle.std.specs.Prelude.{◌≡◌, false, ◌+◌, ◌≤◌, [], ◌∷◌};
ghost use Rattle.spi_lex.specs.declared.token.Mark.TheVariants.{Semicolon};
ghost use Rattle.spi_tree.specs.Trees.{stop};
ghost use Rattle.spi_tree.specs.Views.{msg_of, ty_of, proc_of};
ghost use Rattle.spi_parse.specs.Places.{state_of, out_form, inp_form, repeat_form, split_form, match_form, case_form, decrypt_form, check_form, begin_form, end_form, end_many_form, cast_form, new_form, group_form, GivesPart};
ghost use Rattle.spi_parse.specs.Ends.{done, proc_option};
ghost use Rattle.spi_parse.specs.FormMoves.{by_form};
ghost use Rattle.spi_parse.specs.declared.forms.Form.TheVariants as forms;
ghost use Rattle.spi_parse.specs.Table.{the_mark, msg, binder, sproc, seq, out_tail, par_tail, out_of, over};
ghost use Rattle.spi_parse.specs.Reading.{Gives, read, read_all, limited};

use crate::cursor::{PROCESS_LIMIT, Reader, fits, span_from, syntax};
use crate::fault::Stop;
use crate::forms::{Event, Form, Open, Plain, Talk, form_of};
use crate::heads::{
    binder, case_head, cast_head, check_head, decrypt_head, match_head, split_head,
};
use crate::messages::message;
use crate::reading::{take_mark, take_reserved};
use crate::seen::Seen;
use spi_lex::{Mark, Reserved};
use spi_text::Span;
use spi_tree::{
    BothParts, CaseParts, CastParts, CheckParts, DecryptParts, EventParts, InpParts, MatchParts,
    NewParts, OutParts, OutThenParts, Room, SMsg, SProc, STy, SWord, SplitParts,
};

/// A process, with the place behind it.
type Part<'b> = Result<SProc<'b>, Stop>;

/// A process of a level.
pub fn process<'b>(
    room: Room<'b>,
    at: &mut Reader<'_>,
    later: bool,
    level: u32,
) -> Result<SProc<'b>, Stop>
    requires { level ≤ 500 }
    ensures { GivesPart proc_of result (state_of at.new)
        (read limited (sproc later level) (state_of at.old)) }
{
    parallel(room, at, later, level)
}

#[cycle(processes)]
fn parallel<'b>(room: Room<'b>, at: &mut Reader<'_>, later: bool, level: u32) -> Part<'b>
    requires { level ≤ 500 }
    ensures { GivesPart proc_of result (state_of at.new)
        (read limited (sproc later level) (state_of at.old)) }
{
    let token = at.first()?;
    let first = sequence(room, at, later, level + 1)?;
    let rest = par_rest(room, at, later, level)?;
    match rest {
        None => Ok(first),
        Some(rest) => {
            let span = span_from(token.span, at);
            let parts = Box::new(room.alloc, BothParts { first, rest })?;
            Ok(SProc::Par { parts, span })
        }
    }
}

#[cycle(processes)]
fn sequence<'b>(room: Room<'b>, at: &mut Reader<'_>, later: bool, nesting: u32) -> Part<'b>
    requires { nesting ≤ 501 }
    ensures { GivesPart proc_of result (state_of at.new)
        (read limited (seq later nesting) (state_of at.old)) }
{
    let first = at.first()?;
    let form = form_of(later, &first.kind);
    read_form(room, form, at, later, nesting)
}

#[cycle(processes)]
#[inline(always)]
fn read_form<'b>(
    room: Room<'b>,
    form: Form,
    at: &mut Reader<'_>,
    later: bool,
    nesting: u32,
) -> Part<'b>
    requires { nesting ≤ 501 }
    ensures { GivesPart proc_of result (state_of at.new) (by_form later nesting form (state_of at.old)) }
{
    match form {
        Form::Talk(form) => read_talk(room, form, at, later, nesting),
        Form::Open(form) => read_open(room, form, at, later, nesting),
        Form::Event(form) => read_event(room, form, at, later, nesting),
        Form::Plain(form) => read_plain(room, form, at, later, nesting),
        Form::NoForm => {
            at.first()?;
            Err(syntax(at))
        }
    }
}

#[cycle(processes)]
fn read_talk<'b>(
    room: Room<'b>,
    form: Talk,
    at: &mut Reader<'_>,
    later: bool,
    nesting: u32,
) -> Part<'b>
    requires { nesting ≤ 501 }
    ensures { GivesPart proc_of result (state_of at.new)
        (by_form later nesting (forms.Talk form) (state_of at.old)) }
{
    let first = at.first()?;
    fits(nesting, PROCESS_LIMIT, at)?;
    match form {
        Talk::Out => {
            at.advance();
            read_out(room, first.span, at, later, nesting)
        }
        Talk::Inp => {
            at.advance();
            read_inp(room, first.span, at, later, nesting)
        }
        Talk::Repeat => {
            at.advance();
            read_repeat(room, first.span, at, later, nesting)
        }
    }
}

#[cycle(processes)]
fn read_open<'b>(
    room: Room<'b>,
    form: Open,
    at: &mut Reader<'_>,
    later: bool,
    nesting: u32,
) -> Part<'b>
    requires { nesting ≤ 501 }
    ensures { GivesPart proc_of result (state_of at.new)
        (by_form later nesting (forms.Open form) (state_of at.old)) }
{
    let first = at.first()?;
    fits(nesting, PROCESS_LIMIT, at)?;
    match form {
        Open::Split => {
            at.advance();
            read_split(room, first.span, at, later, nesting)
        }
        Open::Match => {
            at.advance();
            read_match(room, first.span, at, later, nesting)
        }
        Open::Case => {
            at.advance();
            read_case(room, first.span, at, later, nesting)
        }
        Open::Decrypt => {
            at.advance();
            read_decrypt(room, first.span, at, later, nesting)
        }
    }
}

#[cycle(processes)]
fn read_event<'b>(
    room: Room<'b>,
    form: Event,
    at: &mut Reader<'_>,
    later: bool,
    nesting: u32,
) -> Part<'b>
    requires { nesting ≤ 501 }
    ensures { GivesPart proc_of result (state_of at.new)
        (by_form later nesting (forms.Event form) (state_of at.old)) }
{
    let first = at.first()?;
    fits(nesting, PROCESS_LIMIT, at)?;
    match form {
        Event::Check => {
            at.advance();
            read_check(room, first.span, at, later, nesting)
        }
        Event::Begin => {
            at.advance();
            read_begin(room, first.span, at, later, nesting)
        }
        Event::End => {
            at.advance();
            read_end(room, first.span, at, later, nesting)
        }
        Event::EndMany => {
            at.advance();
            read_end_many(room, first.span, at, later, nesting)
        }
    }
}

#[cycle(processes)]
fn read_plain<'b>(
    room: Room<'b>,
    form: Plain,
    at: &mut Reader<'_>,
    later: bool,
    nesting: u32,
) -> Part<'b>
    requires { nesting ≤ 501 }
    ensures { GivesPart proc_of result (state_of at.new)
        (by_form later nesting (forms.Plain form) (state_of at.old)) }
{
    let first = at.first()?;
    fits(nesting, PROCESS_LIMIT, at)?;
    match form {
        Plain::Cast => {
            at.advance();
            read_cast(room, first.span, at, later, nesting)
        }
        Plain::New => {
            at.advance();
            read_new(room, first.span, at, later, nesting)
        }
        Plain::Stop => {
            at.advance();
            read_stop(room, first.span, at)
        }
        Plain::Group => {
            at.advance();
            read_group(room, first.span, at, later, nesting)
        }
    }
}

#[cycle(processes)]
fn read_out<'b>(
    room: Room<'b>,
    first: Span,
    at: &mut Reader<'_>,
    later: bool,
    nesting: u32,
) -> Part<'b>
    requires { nesting ≤ 500 }
    ensures { GivesPart proc_of result (state_of at.new)
        (out_form later nesting (first ∷ []) (state_of at.old)) }
{
    let channel = message(room, at, later)?;
    let datum = message(room, at, later)?;
    let then = out_rest(room, at, later, nesting)?;
    end_out(room, first, channel, datum, then, at)
}

/// The sending of these parts, which ends before this place.
fn end_out<'b>(
    room: Room<'b>,
    first: Span,
    channel: SMsg<'b>,
    datum: SMsg<'b>,
    then: Option<SProc<'b>>,
    at: &mut Reader<'_>,
) -> Part<'b>
    ensures { GivesPart proc_of result (state_of at.new)
        (done (out_of (over (first ∷ []) (state_of at.old).end) (msg_of channel.entry)
        (msg_of datum.entry) (proc_option then.entry))
        (state_of at.old)) }
{
    let span = span_from(first, at);
    match then {
        None => {
            let parts = Box::new(room.alloc, OutParts { channel, datum })?;
            Ok(SProc::Out { parts, span })
        }
        Some(then) => {
            let parts = Box::new(
                room.alloc,
                OutThenParts {
                    channel,
                    datum,
                    then,
                },
            )?;
            Ok(SProc::OutThen { parts, span })
        }
    }
}

/// The channel, the name and the process of a form that receives.
#[cycle(processes)]
#[inline(always)]
fn read_receiving<'b>(
    room: Room<'b>,
    at: &mut Reader<'_>,
    later: bool,
    nesting: u32,
) -> Result<(SMsg<'b>, SWord, STy<'b>, SProc<'b>), Stop>
    requires { nesting ≤ 500 }
    ensures { GivesPart (λ x. (msg_of x.0, ((x.1, ty_of x.2), (proc_of x.3, tt)))) result (state_of at.new)
        (read_all (read limited) (msg later false 1 ∷ binder later ∷ seq later (nesting + 1) ∷ [])
        (state_of at.old)) }
{
    let channel = message(room, at, later)?;
    let (name, ty) = binder(room, at, later)?;
    let then = sequence(room, at, later, nesting + 1)?;
    Ok((channel, name, ty, then))
}

#[cycle(processes)]
fn read_inp<'b>(
    room: Room<'b>,
    first: Span,
    at: &mut Reader<'_>,
    later: bool,
    nesting: u32,
) -> Part<'b>
    requires { nesting ≤ 500 }
    ensures { GivesPart proc_of result (state_of at.new)
        (inp_form later nesting (first ∷ []) (state_of at.old)) }
{
    let (channel, name, ty, then) = read_receiving(room, at, later, nesting)?;
    let span = span_from(first, at);
    let parts = Box::new(
        room.alloc,
        InpParts {
            channel,
            name,
            ty,
            then,
        },
    )?;
    Ok(SProc::Inp { parts, span })
}

#[cycle(processes)]
fn read_repeat<'b>(
    room: Room<'b>,
    first: Span,
    at: &mut Reader<'_>,
    later: bool,
    nesting: u32,
) -> Part<'b>
    requires { nesting ≤ 500 }
    ensures { GivesPart proc_of result (state_of at.new)
        (repeat_form later nesting (first ∷ []) (state_of at.old)) }
{
    take_reserved(at, Reserved::Inp)?;
    let (channel, name, ty, then) = read_receiving(room, at, later, nesting)?;
    let span = span_from(first, at);
    let parts = Box::new(
        room.alloc,
        InpParts {
            channel,
            name,
            ty,
            then,
        },
    )?;
    Ok(SProc::Repeat { parts, span })
}

#[cycle(processes)]
fn read_split<'b>(
    room: Room<'b>,
    first: Span,
    at: &mut Reader<'_>,
    later: bool,
    nesting: u32,
) -> Part<'b>
    requires { nesting ≤ 500 }
    ensures { GivesPart proc_of result (state_of at.new)
        (split_form later nesting (first ∷ []) (state_of at.old)) }
{
    let whole = message(room, at, later)?;
    let (left, left_ty, right, right_ty) = split_head(room, at, later)?;
    let then = sequence(room, at, later, nesting + 1)?;
    let span = span_from(first, at);
    let parts = Box::new(
        room.alloc,
        SplitParts {
            whole,
            left,
            left_ty,
            right,
            right_ty,
            then,
        },
    )?;
    Ok(SProc::Split { parts, span })
}

#[cycle(processes)]
fn read_match<'b>(
    room: Room<'b>,
    first: Span,
    at: &mut Reader<'_>,
    later: bool,
    nesting: u32,
) -> Part<'b>
    requires { nesting ≤ 500 }
    ensures { GivesPart proc_of result (state_of at.new)
        (match_form later nesting (first ∷ []) (state_of at.old)) }
{
    let whole = message(room, at, later)?;
    let (left, left_ty, equal, right, right_ty) = match_head(room, at, later)?;
    let then = sequence(room, at, later, nesting + 1)?;
    let span = span_from(first, at);
    let parts = Box::new(
        room.alloc,
        MatchParts {
            whole,
            left,
            left_ty,
            equal,
            right,
            right_ty,
            then,
        },
    )?;
    Ok(SProc::Match { parts, span })
}

#[cycle(processes)]
fn read_case<'b>(
    room: Room<'b>,
    first: Span,
    at: &mut Reader<'_>,
    later: bool,
    nesting: u32,
) -> Part<'b>
    requires { nesting ≤ 500 }
    ensures { GivesPart proc_of result (state_of at.new)
        (case_form later nesting (first ∷ []) (state_of at.old)) }
{
    let whole = message(room, at, later)?;
    let (left, left_ty) = case_head(room, at, later, Reserved::Inl)?;
    let on_left = sequence(room, at, later, nesting + 1)?;
    let (right, right_ty) = case_head(room, at, later, Reserved::Inr)?;
    let on_right = sequence(room, at, later, nesting + 1)?;
    let span = span_from(first, at);
    let parts = Box::new(
        room.alloc,
        CaseParts {
            whole,
            left,
            left_ty,
            on_left,
            right,
            right_ty,
            on_right,
        },
    )?;
    Ok(SProc::Case { parts, span })
}

#[cycle(processes)]
fn read_decrypt<'b>(
    room: Room<'b>,
    first: Span,
    at: &mut Reader<'_>,
    later: bool,
    nesting: u32,
) -> Part<'b>
    requires { nesting ≤ 500 }
    ensures { GivesPart proc_of result (state_of at.new)
        (decrypt_form later nesting (first ∷ []) (state_of at.old)) }
{
    let whole = message(room, at, later)?;
    let (name, ty, key) = decrypt_head(room, at, later)?;
    let then = sequence(room, at, later, nesting + 1)?;
    let span = span_from(first, at);
    let parts = Box::new(
        room.alloc,
        DecryptParts {
            whole,
            name,
            ty,
            key,
            then,
        },
    )?;
    Ok(SProc::Decrypt { parts, span })
}

#[cycle(processes)]
fn read_check<'b>(
    room: Room<'b>,
    first: Span,
    at: &mut Reader<'_>,
    later: bool,
    nesting: u32,
) -> Part<'b>
    requires { nesting ≤ 500 }
    ensures { GivesPart proc_of result (state_of at.new)
        (check_form later nesting (first ∷ []) (state_of at.old)) }
{
    let whole = message(room, at, later)?;
    let nonce = check_head(room, at, later)?;
    let then = sequence(room, at, later, nesting + 1)?;
    let span = span_from(first, at);
    let parts = Box::new(room.alloc, CheckParts { whole, nonce, then })?;
    Ok(SProc::Check { parts, span })
}

/// The label of an event, and the process behind it.
#[cycle(processes)]
#[inline(always)]
fn read_label<'b>(
    room: Room<'b>,
    at: &mut Reader<'_>,
    later: bool,
    nesting: u32,
) -> Result<(SMsg<'b>, SProc<'b>), Stop>
    requires { nesting ≤ 500 }
    ensures { GivesPart (λ x. (msg_of x.0, (tt, (proc_of x.1, tt)))) result (state_of at.new)
        (read_all (read limited) (msg later false 1 ∷ the_mark Semicolon ∷ seq later (nesting + 1) ∷ [])
        (state_of at.old)) }
{
    let label = message(room, at, later)?;
    take_mark(at, Mark::Semicolon)?;
    let then = sequence(room, at, later, nesting + 1)?;
    Ok((label, then))
}

#[cycle(processes)]
fn read_begin<'b>(
    room: Room<'b>,
    first: Span,
    at: &mut Reader<'_>,
    later: bool,
    nesting: u32,
) -> Part<'b>
    requires { nesting ≤ 500 }
    ensures { GivesPart proc_of result (state_of at.new)
        (begin_form later nesting (first ∷ []) (state_of at.old)) }
{
    let (label, then) = read_label(room, at, later, nesting)?;
    let span = span_from(first, at);
    let parts = Box::new(room.alloc, EventParts { label, then })?;
    Ok(SProc::Begin { parts, span })
}

#[cycle(processes)]
fn read_end<'b>(
    room: Room<'b>,
    first: Span,
    at: &mut Reader<'_>,
    later: bool,
    nesting: u32,
) -> Part<'b>
    requires { nesting ≤ 500 }
    ensures { GivesPart proc_of result (state_of at.new)
        (end_form later nesting (first ∷ []) (state_of at.old)) }
{
    let (label, then) = read_label(room, at, later, nesting)?;
    let span = span_from(first, at);
    let parts = Box::new(room.alloc, EventParts { label, then })?;
    Ok(SProc::End { parts, span })
}

#[cycle(processes)]
fn read_end_many<'b>(
    room: Room<'b>,
    first: Span,
    at: &mut Reader<'_>,
    later: bool,
    nesting: u32,
) -> Part<'b>
    requires { nesting ≤ 500 }
    ensures { GivesPart proc_of result (state_of at.new)
        (end_many_form later nesting (first ∷ []) (state_of at.old)) }
{
    let (label, then) = read_label(room, at, later, nesting)?;
    let span = span_from(first, at);
    let parts = Box::new(room.alloc, EventParts { label, then })?;
    Ok(SProc::EndMany { parts, span })
}

#[cycle(processes)]
fn read_cast<'b>(
    room: Room<'b>,
    first: Span,
    at: &mut Reader<'_>,
    later: bool,
    nesting: u32,
) -> Part<'b>
    requires { nesting ≤ 500 }
    ensures { GivesPart proc_of result (state_of at.new)
        (cast_form later nesting (first ∷ []) (state_of at.old)) }
{
    let whole = message(room, at, later)?;
    let (name, ty) = cast_head(room, at, later)?;
    let then = sequence(room, at, later, nesting + 1)?;
    let span = span_from(first, at);
    let parts = Box::new(
        room.alloc,
        CastParts {
            whole,
            name,
            ty,
            then,
        },
    )?;
    Ok(SProc::Cast { parts, span })
}

#[cycle(processes)]
fn read_new<'b>(
    room: Room<'b>,
    first: Span,
    at: &mut Reader<'_>,
    later: bool,
    nesting: u32,
) -> Part<'b>
    requires { nesting ≤ 500 }
    ensures { GivesPart proc_of result (state_of at.new)
        (new_form later nesting (first ∷ []) (state_of at.old)) }
{
    let (name, ty) = binder(room, at, later)?;
    let then = sequence(room, at, later, nesting + 1)?;
    let span = span_from(first, at);
    let parts = Box::new(room.alloc, NewParts { name, ty, then })?;
    Ok(SProc::New { parts, span })
}

fn read_stop<'b>(room: Room<'b>, span: Span, at: &mut Reader<'_>) -> Part<'b>
    ensures { GivesPart proc_of result (state_of at.new) (done (stop span) (state_of at.old)) }
{
    Ok(SProc::Stop { span })
}

#[cycle(processes)]
fn read_group<'b>(
    room: Room<'b>,
    start: Span,
    at: &mut Reader<'_>,
    later: bool,
    nesting: u32,
) -> Part<'b>
    requires { nesting ≤ 500 }
    ensures { GivesPart proc_of result (state_of at.new)
        (group_form later nesting (start ∷ []) (state_of at.old)) }
{
    let first = sequence(room, at, later, nesting + 1)?;
    take_mark(at, Mark::Bar)?;
    let rest = parallel(room, at, later, nesting + 1)?;
    take_mark(at, Mark::ParenClose)?;
    let span = span_from(start, at);
    let parts = Box::new(room.alloc, BothParts { first, rest })?;
    Ok(SProc::Group { parts, span })
}

#[cycle(processes)]
fn out_rest<'b>(
    room: Room<'b>,
    at: &mut Reader<'_>,
    later: bool,
    nesting: u32,
) -> Result<Option<SProc<'b>>, Stop>
    requires { nesting ≤ 500 }
    ensures { GivesPart proc_option result (state_of at.new)
        (read limited (out_tail later nesting) (state_of at.old)) }
{
    let Ok(first) = at.first() else {
        return Ok(None);
    };
    match first.kind {
        Seen::Mark(Mark::Semicolon) => {
            at.advance();
            let then = sequence(room, at, later, nesting + 1)?;
            Ok(Some(then))
        }
        _ => Ok(None),
    }
}

#[cycle(processes)]
fn par_rest<'b>(
    room: Room<'b>,
    at: &mut Reader<'_>,
    later: bool,
    level: u32,
) -> Result<Option<SProc<'b>>, Stop>
    requires { level ≤ 499 }
    ensures { GivesPart proc_option result (state_of at.new)
        (read limited (par_tail later level) (state_of at.old)) }
{
    let Ok(first) = at.first() else {
        return Ok(None);
    };
    match first.kind {
        Seen::Mark(Mark::Bar) => {
            at.advance();
            let then = parallel(room, at, later, level + 1)?;
            Ok(Some(then))
        }
        _ => Ok(None),
    }
}

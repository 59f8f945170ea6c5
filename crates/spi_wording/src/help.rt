// What usually mends a message.
use crate::blame::{Scene, type_of};
use crate::find::binder_of;
use crate::page::{Kind, Page};
use crate::terms::{put_message, put_types};
use spi_blame::Blame;
use spi_fault::Reason;
use spi_term::{Form, Msg, Ty};

// The name is one that `new` makes.
fn is_made(scene: &Scene<'_>, part: &Msg) -> bool {
    let Msg::Name(x) = part else {
        return false;
    };
    match binder_of(&scene.case.file.process, scene.node, *x) {
        Some(id) if id < scene.case.file.process.len() => match &scene
            .case
            .file
            .process
            .node(id)
            .form
        {
            Form::Fresh { .. } => true,
            _ => false,
        },
        _ => false,
    }
}

// Of a name of a type that is no `Un`, where `Un` is wanted.
fn help_untrusted(scene: &Scene<'_>, form: &Form, part: &Msg, has: &Ty) -> &'static str {
    match (has, form) {
        (_, Form::Check { .. }) => {
            "in `check n is p` one's own nonce comes first, and then what came in: are the two exchanged?"
        }
        (Ty::Nonce(_), Form::Cast { .. }) =>
            "it has a promise already: cast what came in, and not what a cast gave",
        (Ty::Key(_), _) => "a key is secret: send it under another key, as in `{k}other`",
        (Ty::Nonce(_), _) => {
            if is_made(scene, part) {
                "make it by `new (n: Un)`; who answers casts it to the Nonce type"
            } else {
                "a nonce with a promise is sent under a key"
            }
        }
        _ => "what came out of a ciphertext with types of its own is sent under a key",
    }
}

// Of a part, where a promise is wanted.
fn help_nonce(page: &mut Page, scene: &Scene<'_>, part: &Msg, wanted: &Ty) {
    match type_of(&scene.env, part) {
        Some(Ty::Un) => {
            page.put("put the promise into it: `cast ");
            put_message(page, &scene.names, 0, part);
            page.put(" is (p: ");
            put_types(page, &scene.names, 0, wanted, false);
            page.put(");`, and write `p` in its place");
        }
        Some(Ty::Nonce(_)) => {
            page.put(
                "the two promises differ: the begin, the cast, the types and the end have one label, with the same names in the same order",
            );
        }
        _ => {
            page.put("the type has a nonce here: are all parts there, in the order of the type?");
        }
    }
}

// Of a part, where a type of several parts is wanted.
fn help_parts(form: &Form) -> &'static str {
    match form {
        Form::Send { .. } => {
            "a key takes messages of one type alone: all its parts, in their order, and no more; for another kind of message make another key, or a sum type with `inl` and `inr`"
        }
        Form::Select { .. } => {
            "hold the two types beside each other; the second type of a `match` speaks of the name in front of the `=`, and not of the value"
        }
        _ => {
            "hold the two types beside each other, part by part; what is of type `Un` has parts of type `Un`, and only `decrypt` with a key gives what came in another type"
        }
    }
}

fn put_advice(page: &mut Page, scene: &Scene<'_>, form: &Form, part: &Msg, wanted: &Ty) {
    match wanted {
        Ty::Un => match type_of(&scene.env, part) {
            Some(t) => page.put(help_untrusted(scene, form, part, t)),
            None => page.put("what is sent in the clear is of type `Un` in all its parts"),
        },
        Ty::Unit => page.put("`()` is wanted here: are all parts there, in the order of the type?"),
        Ty::Pair(_) => page.put(help_parts(form)),
        Ty::Sum(_) => page.put(
            "the type has two cases: write `inl` or `inr` in front of the message",
        ),
        Ty::Key(_) => page.put(
            "is it the key of another pair? Write one abbreviation for the type in both places",
        ),
        Ty::Nonce(_) => help_nonce(page, scene, part, wanted),
    }
}

// What usually mends a message in this place, whatever is to blame in it.
fn place_help(reason: Reason) -> Option<&'static str> {
    match reason {
        Reason::ChannelNotUn => Some(
            "a channel is a name that all may know, as in `out net M`: are the channel and the message exchanged?",
        ),
        Reason::NotANonce => {
            Some(
                "`check` takes a nonce out of a payload that was taken apart; to compare keys, compare hashes of them (version 2)",
            )
        }
        Reason::NotALabel => {
            Some(
                "a label is made of names, pairs, tags and hashes; a ciphertext is one only where it may be sent",
            )
        }
        _ => None,
    }
}

/// What usually mends a part that is to blame, where the node has this form and is wrong for this reason.
pub fn put_help(page: &mut Page, scene: &Scene<'_>, reason: Reason, form: &Form, blame: &Blame) {
    page.open(Kind::Help, None);
    match (place_help(reason), &blame.wanted) {
        (Some(text), _) => page.put(text),
        (None, Some(wanted)) => put_advice(page, scene, form, &blame.part, wanted),
        (None, None) => page.put("a label is made of names, pairs, tags and hashes"),
    }
    page.close(scene.case.source, None);
}

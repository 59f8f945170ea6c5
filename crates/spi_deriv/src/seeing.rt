// What is seen of a message, by its form and the type of a name.

ghost use Rattle.std.specs.Prelude.{◌≡◌, Some, None, slice_get, IfSome, IfNone};
ghost use Rattle.spi_term.specs.View.{message, ty as type_of};
ghost use Rattle.spi_message.specs.Tests.{type_of_key, nonce_of};
ghost use Rattle.spi_message.specs.Forms.{is_nonce};
ghost use Rattle.spi_deriv.specs.Agenda.{types_of};
ghost use Rattle.spi_deriv.specs.Uses.{is_pair_ty, is_pair, is_sum_ty, is_sum};

use spi_message::written::{is_nonce_type, payload_of};
use spi_term::{Msg, Ty};

// The type of a name, where the name is in scope.
fn type_at<'a>(types: &[&'a Ty], x: u32) -> Option<&'a Ty>
    ensures some { IfSome result (λ t. slice_get (types_of types.now) x ≡ Some (type_of t.now)) }
    ensures none { IfNone result (slice_get (types_of types.now) x ≡ None) }
{
    let place = x as usize;
    if place < types.len() {
        Some(types[place])
    } else {
        None
    }
}

/// The T of a name of type Key(T).
pub fn payload<'a>(types: &[&'a Ty], key: &Msg) -> Option<&'a Ty>
    ensures some { IfSome result
        (λ t. type_of_key (types_of types.now) (message key.now) ≡ Some (type_of t.now)) }
    ensures none { IfNone result (type_of_key (types_of types.now) (message key.now) ≡ None) }
{
    match key {
        Msg::Name(x) => match type_at(types, *x) {
            Some(t) => payload_of(t),
            None => None,
        },
        _ => None,
    }
}

/// Whether the message is a name of a Nonce type.
pub fn is_nonce_name(types: &[&Ty], m: &Msg) -> bool
    ensures { result ≡ is_nonce (nonce_of (types_of types.now) (message m.now)) }
{
    match m {
        Msg::Name(x) => match type_at(types, *x) {
            Some(t) => is_nonce_type(t),
            None => false,
        },
        _ => false,
    }
}

fn is_pair_type(t: &Ty) -> bool
    ensures { result ≡ is_pair_ty (Some (type_of t.now)) }
{
    match t {
        Ty::Pair(_) => true,
        _ => false,
    }
}

/// Whether the message is a pair, or a name of a pair type.
pub fn is_pair(types: &[&Ty], m: &Msg) -> bool
    ensures { result ≡ is_pair (types_of types.now) (message m.now) }
{
    match m {
        Msg::Name(x) => match type_at(types, *x) {
            Some(t) => is_pair_type(t),
            None => false,
        },
        Msg::Pair(_) => true,
        _ => false,
    }
}

fn is_sum_type(t: &Ty) -> bool
    ensures { result ≡ is_sum_ty (Some (type_of t.now)) }
{
    match t {
        Ty::Sum(_) => true,
        _ => false,
    }
}

/// Whether the message is a side of a sum, or a name of a sum type.
pub fn is_sum(types: &[&Ty], m: &Msg) -> bool
    ensures { result ≡ is_sum (types_of types.now) (message m.now) }
{
    match m {
        Msg::Name(x) => match type_at(types, *x) {
            Some(t) => is_sum_type(t),
            None => false,
        },
        Msg::Inl(_) => true,
        Msg::Inr(_) => true,
        _ => false,
    }
}

// The heads of written types.

ghost use Rattle.std.specs.Prelude.{◌≡◌, None, Some, IfSome, IfNone};
ghost use Rattle.spi_term.specs.View.{ty};
ghost use Rattle.spi_message.specs.Forms.{is_nonce};
ghost use Rattle.spi_message.specs.Tests.{is_unit, key_in, nonce_in};

use spi_term::Ty;

/// Whether the type is `()`, or `Un`.
pub fn is_unit_type(t: &Ty) -> bool
    ensures { result ≡ is_unit (ty t.now) }
{
    match t {
        Ty::Un => true,
        Ty::Unit => true,
        _ => false,
    }
}

/// Whether the type is a Nonce type.
pub fn is_nonce_type(t: &Ty) -> bool
    ensures { result ≡ is_nonce (nonce_in (Some (ty t.now))) }
{
    match t {
        Ty::Nonce(_) => true,
        _ => false,
    }
}

/// The T of a type Key(T).
pub fn payload_of(t: &Ty) -> Option<&Ty>
    ensures some { IfSome result (λ u. key_in (Some (ty t.now)) ≡ Some (ty u.now)) }
    ensures none { IfNone result (key_in (Some (ty t.now)) ≡ None) }
{
    match t {
        Ty::Key(u) => Some(u),
        _ => None,
    }
}

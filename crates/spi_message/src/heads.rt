// The heads of types by their numbers in a store.

ghost use Rattle.std.specs.Prelude.{◌≡◌, IfSome, IfNone, Some};
ghost use Rattle.spi_term.specs.Term.{Ty as TypeTerm};
ghost use Rattle.spi_intern.specs.Given.{IsGiven};
ghost use Rattle.spi_intern.specs.Meaning.{Means};
ghost use Rattle.spi_message.specs.Asking.{IsKeyFor, IsNoKey, AreSidesOf, HasNoSides};
ghost use Rattle.spi_message.specs.Forms.{is_nonce};
ghost use Rattle.spi_message.specs.Tests.{is_un, is_unit, nonce_in};

use spi_intern::{Store, TyId, TyPart};

/// Whether the type is `Un`.
pub fn is_un_type(store: &Store, t: TyId) -> bool
    requires { IsGiven store.now t.place }
    ensures { (u : TypeTerm) → Means store.now t.place u → result ≡ is_un u }
{
    match store.ty_part(t) {
        TyPart::Un => true,
        _ => false,
    }
}

/// Whether the type is `()`, or `Un`.
pub fn is_unit_type(store: &Store, t: TyId) -> bool
    requires { IsGiven store.now t.place }
    ensures { (u : TypeTerm) → Means store.now t.place u → result ≡ is_unit u }
{
    match store.ty_part(t) {
        TyPart::Un => true,
        TyPart::Unit => true,
        _ => false,
    }
}

/// Whether the type is a Nonce type.
pub fn is_nonce_type(store: &Store, t: TyId) -> bool
    requires { IsGiven store.now t.place }
    ensures { (u : TypeTerm) → Means store.now t.place u → result ≡ is_nonce (nonce_in (Some u)) }
{
    match store.ty_part(t) {
        TyPart::Nonce(_) => true,
        _ => false,
    }
}

/// The T of a type Key(T).
pub fn payload_of(store: &Store, t: TyId) -> Option<TyId>
    requires { IsGiven store.now t.place }
    ensures some { IfSome result (IsKeyFor store.now t) }
    ensures none { IfNone result (IsNoKey store.now t) }
{
    match store.ty_part(t) {
        TyPart::Key(payload) => Some(payload),
        _ => None,
    }
}

/// The types that the two sides of a sum are asked for, where it is asked for this type.
pub fn sides_of(store: &Store, t: TyId) -> Option<(TyId, TyId)>
    requires { IsGiven store.now t.place }
    ensures some { IfSome result (λ sides. AreSidesOf store.now t sides.0 sides.1) }
    ensures none { IfNone result (HasNoSides store.now t) }
{
    match store.ty_part(t) {
        TyPart::Un => Some((t, t)),
        TyPart::Sum(left, right) => Some((left, right)),
        _ => None,
    }
}

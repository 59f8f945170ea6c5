// Tests of the form of a type.

ghost use Rattle.std.specs.Prelude.{◌≡◌};
ghost use Rattle.spi_term.specs.View.{ty};
ghost use Rattle.spi_message.specs.Tests.{is_un, is_fresh};

use spi_term::Ty;

/// Whether the type is `Un`.
pub fn is_un_type(t: &Ty) -> bool
    ensures { result ≡ is_un (ty t.now) }
{
    matches!(t, Ty::Un)
}

/// Whether the type is `Un` or a Key.
pub fn is_fresh_type(t: &Ty) -> bool
    ensures { result ≡ is_fresh (ty t.now) }
{
    match t {
        Ty::Un => true,
        Ty::Key(_) => true,
        _ => false,
    }
}

// Messages and types that are made of two.

ghost use Rattle.std.specs.Prelude.{◌≡◌, IfOk};
ghost use Rattle.spi_term.specs.Term.{pair, enc, pair_ty, sum_ty};
ghost use Rattle.spi_term.specs.View.{message, ty};

use crate::NoMemory;
use crate::term::{Msg, Sealed, Two, TwoTypes, Ty};
use std::alloc::Global;

impl Msg {
    /// The pair of two messages. Its only error is NoMemory.
    #[inline(always)]
    pub fn paired(alloc: Global, first: Msg, second: Msg) -> Result<Msg, NoMemory>
        ensures { IfOk result (λ m. message m ≡ pair (message first) (message second)) }
    {
        Ok(Msg::Pair(Box::new(alloc, Two { first, second })?))
    }

    /// The body, encrypted under the key. Its only error is NoMemory.
    #[inline(always)]
    pub fn sealed(alloc: Global, body: Msg, key: Msg) -> Result<Msg, NoMemory>
        ensures { IfOk result (λ m. message m ≡ enc (message body) (message key)) }
    {
        Ok(Msg::Enc(Box::new(alloc, Sealed { body, key })?))
    }
}

impl Ty {
    /// The type of pairs of these two, of which the second stands under a binder. Its only error is NoMemory.
    #[inline(always)]
    pub fn paired(alloc: Global, first: Ty, second: Ty) -> Result<Ty, NoMemory>
        ensures { IfOk result (λ t. ty t ≡ pair_ty (ty first) (ty second)) }
    {
        Ok(Ty::Pair(Box::new(alloc, TwoTypes { first, second })?))
    }

    /// The sum of these two. Its only error is NoMemory.
    #[inline(always)]
    pub fn summed(alloc: Global, first: Ty, second: Ty) -> Result<Ty, NoMemory>
        ensures { IfOk result (λ t. ty t ≡ sum_ty (ty first) (ty second)) }
    {
        Ok(Ty::Sum(Box::new(alloc, TwoTypes { first, second })?))
    }
}

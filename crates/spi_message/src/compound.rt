// Types that are made of others.

ghost use Rattle.std.specs.Prelude.{◌≡◌, Ok, IfOk};
ghost use Rattle.spi_term.specs.Term.{pair_ty, sum_ty, key};
ghost use Rattle.spi_term.specs.View.{ty as type_of};

use crate::NoMemory;
use spi_term::Ty;
use std::alloc::Global;

/// The value on the heap, where there is one. An error is want of memory, here or before.
pub fn boxed<T: Drop>(alloc: Global, value: Result<T, NoMemory>) -> Result<Box<T>, NoMemory>
    ensures { IfOk result (λ b. value ≡ Ok b.value) }
{
    Ok(Box::new(alloc, value?)?)
}

/// The type of pairs of these two, of which the second stands under a binder. An error is want of memory.
pub fn pair_type(alloc: Global, first: &Ty, second: &Ty) -> Result<Ty, NoMemory>
    ensures { IfOk result (λ r. type_of r ≡ pair_ty (type_of first.now) (type_of second.now)) }
{
    let a = first.copy(alloc)?;
    let b = second.copy(alloc)?;
    Ty::paired(alloc, a, b)
}

/// The sum of these two. An error is want of memory.
pub fn sum_type(alloc: Global, left: &Ty, right: &Ty) -> Result<Ty, NoMemory>
    ensures { IfOk result (λ r. type_of r ≡ sum_ty (type_of left.now) (type_of right.now)) }
{
    let a = left.copy(alloc)?;
    let b = right.copy(alloc)?;
    Ty::summed(alloc, a, b)
}

/// The type of keys for this payload. An error is want of memory.
pub fn key_type(alloc: Global, t: &Ty) -> Result<Ty, NoMemory>
    ensures { IfOk result (λ r. type_of r ≡ key (type_of t.now)) }
{
    Ok(Ty::Key(boxed(alloc, t.copy(alloc))?))
}

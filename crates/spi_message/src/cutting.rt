// Names that are taken away from a judge.

ghost use Rattle.std.specs.Prelude.{◌≡◌, ◌≤◌, take};

use crate::Judge;

/// The names from this number on are taken away.
#[inline(always)]
pub fn cut_to(judge: &mut Judge, count: u32)
    requires { judge.old.free ≤ count }
    ensures types { judge.new.types ≡ take count judge.old.types }
    ensures store { judge.new.store ≡ judge.old.store }
    ensures free { judge.new.free ≡ judge.old.free }
{
    while judge.len() > count {
        judge.unbind();
    }
}

// What the verdict of the whole rests on.
ghost use Rattle.spi_bench.specs.Whole.{SumIsLeast, OneHasNone, PartsDecide};

/// The least effect of parts side by side is the sum of their least effects, and they have none exactly where one of them
/// has none. So the whole is derivable with no effect exactly where each shared type is one that `new` may make and good
/// in the environment before it, each part has a least effect, and the sum of these has at most one `check x` for each
/// shared name x, and nothing else.
pub fn parts_decide()
    ensures least { SumIsLeast }
    ensures blocked { OneHasNone }
    ensures whole { PartsDecide }
{}

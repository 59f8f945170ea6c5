// Rules over numbers, and reasons.

/// Where the numbers `first` and `second` are reached, `gives` is. A rule of one premise has it twice.
#[derive(Clone, Copy)]
pub struct Rule {
    pub first: usize,
    pub second: usize,
    pub gives: usize,
}

/// Why a number is reached: it stands at this place of the start, or the rule at this place gives it.
#[derive(Clone, Copy)]
pub enum Why {
    Start(usize),
    ByRule(usize),
}

/// A number that is reached, and why.
#[derive(Clone, Copy)]
pub struct Reached {
    pub number: usize,
    pub why: Why,
}

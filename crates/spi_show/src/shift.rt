// The numbers that names have behind a prefix, and the number that bound names are moved up by.

ghost use Rattle.std.specs.Prelude.{◌≡◌, ◌≢◌, List, ℕ, ◌++◌, length, MatchOption, IfOk, OnOk};
ghost use Rattle.std.specs.Fmt.{decimal};
ghost use Rattle.std.specs.List.Sorted.{IsNonDecreasing};
ghost use Rattle.spi_show.specs.Spelled.{IsShift, IsLeastBehind};
ghost use Rattle.spi_show.specs.Shifts.{IsDecimal, IsNumber, with_least, AreWordNumbers, IsSwept, IsLeastBeside};

use crate::NoMemory;
use crate::spell::Shift;
use spi_text::Text;
use std::alloc::Global;

// What stands behind the prefix.
fn behind<'a>(word: &'a str, prefix: &str) -> Option<&'a str>
    ensures { MatchOption result ((rest : List ℕ) → word.now ≢ prefix.now ++ rest)
        (λ x. word.now ≡ prefix.now ++ x.now) }
{
    word.strip_prefix(prefix)
}

// The number, if these are its digits.
fn if_written(alloc: Global, n: u128, digits: &str) -> Result<Option<u128>, NoMemory>
    ensures { IfOk result
        (λ o. MatchOption o (decimal n ≢ digits.now) (λ m. (m ≡ n) × (decimal n ≡ digits.now))) }
{
    let written = format!(in alloc; "{n}")?;
    if written.as_str() == digits {
        Ok(Some(n))
    } else {
        Ok(None)
    }
}

// The number that has these digits: what is read is written again and compared.
fn decimal_in(alloc: Global, digits: &str) -> Result<Option<u128>, NoMemory>
    ensures { IfOk result (λ o. IsDecimal digits.now o) }
{
    match digits.parse::<u128>() {
        Err(_) => Ok(None),
        Ok(n) => if_written(alloc, n, digits),
    }
}

// The number that a word has behind the prefix.
fn number_in(alloc: Global, word: &str, prefix: &str) -> Result<Option<u128>, NoMemory>
    ensures { IfOk result (λ o. IsNumber prefix.now word.now o) }
{
    match behind(word, prefix) {
        None => Ok(None),
        Some(digits) => decimal_in(alloc, digits),
    }
}

fn keep(number: Option<u128>, numbers: &mut Vec<u128>) -> Result<(), NoMemory>
    ensures { OnOk result (numbers.new.items ≡ with_least numbers.old.items number) }
{
    match number {
        None => Ok(()),
        Some(n) => {
            numbers.push(n)?;
            Ok(())
        }
    }
}

// The numbers that these words have behind the prefix.
fn numbers_in(alloc: Global, words: &[Text], prefix: &str) -> Result<Vec<u128>, NoMemory>
    ensures { IfOk result (λ v. AreWordNumbers prefix.now words.now (length words.now) v.items) }
{
    let mut numbers = Vec::new(alloc);
    for word in words {
        let number = number_in(alloc, word.as_str(), prefix)?;
        keep(number, &mut numbers)?;
    }
    Ok(numbers)
}

// The least number from which on 100,000 aren't among these.
fn sweep(numbers: &[u128]) -> u128
    requires { IsNonDecreasing numbers.now }
    ensures { IsSwept numbers.now (length numbers.now) result }
{
    let mut s: u128 = 0;
    for n in numbers {
        if *n < s + 100_000 {
            s = *n + 1;
        }
    }
    s
}

// The least number that isn't among these.
fn least_beside(numbers: &[u128]) -> u128
    requires { IsNonDecreasing numbers.now }
    ensures { IsLeastBeside numbers.now (length numbers.now) result }
{
    let mut s: u128 = 0;
    for n in numbers {
        if *n == s {
            s += 1;
        }
    }
    s
}

/// The number that bound names are moved up by where these names are free: the least for which no free name is `v` and
/// the decimal digits of a number from it on, up to 99,999 more. It sorts the numbers of the free names.
pub fn shift(alloc: Global, free: &[Text]) -> Result<Shift, NoMemory>
    ensures { IfOk result (λ s. IsShift free.now s) }
{
    let mut numbers = numbers_in(alloc, free, "v")?;
    numbers.sort()?;
    Ok(Shift::of(sweep(&numbers)))
}

/// The least number from 0 for which no word is the prefix and the decimal digits of the number. It sorts the numbers that
/// words have behind the prefix.
pub fn least_behind(alloc: Global, words: &[Text], prefix: &str) -> Result<u128, NoMemory>
    ensures { IfOk result (λ n. IsLeastBehind words.now prefix.now n) }
{
    let mut numbers = numbers_in(alloc, words, prefix)?;
    numbers.sort()?;
    Ok(least_beside(&numbers))
}

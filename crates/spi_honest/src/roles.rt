//! Roles by their numbers.

ghost use Rattle.std.specs.Prelude.{◌≡◌, ◌∷◌, ◌<◌, ◌^◌, IfOk};
ghost use Rattle.spi_honest.specs.Roles.{IsRole};
ghost use Rattle.spi_honest.specs.Progress.{place_number, AreRolePlaces};
ghost use Rattle.spi_honest.specs.Stages.{IsRoleAt};

use crate::NoMemory;
use spi_tree::SWord;
use std::alloc::Global;

/// The number of the role with this word.
pub fn role_number(first: &SWord, more: &[SWord], word: &SWord) -> usize
    requires { IsRole (first.now ∷ more.now) word.now.word }
    ensures { IsRoleAt (first.now ∷ more.now) word.now.word result }
{
    for (i, role) in more.iter().enumerate() {
        if role.word == word.word {
            return i + 1;
        }
    }
    0
}

/// The place of the role with this number, where the opponent has place 1.
pub fn first_place(i: usize) -> u32
    requires { i < 2 ^ 16 }
    ensures { result ≡ place_number i }
{
    if i == 0 { 0 } else { i as u32 + 1 }
}

/// The places of so many roles.
pub fn first_places(alloc: Global, count: usize) -> Result<Vec<u32>, NoMemory>
    requires { count < 2 ^ 16 }
    ensures { IfOk result (λ is. AreRolePlaces count is.items) }
{
    let mut places = Vec::new(alloc);
    for i in 0..count {
        places.push(first_place(i))?;
    }
    Ok(places)
}

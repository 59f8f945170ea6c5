// The command `upgrade`.
ghost use Rattle.std.specs.Prelude.{◌≡◌, ◌≤◌, ◌⊎◌, ◌++◌, length, codes, MatchOption, IfOk, OnErr, Err};
ghost use Rattle.spi_scope.specs.Files.{meant};
ghost use Rattle.spi_commands.specs.Upgrading.{IsNewWord, IsRespelled, AreRespelled, IsUpgrade, UpgradesTo};
ghost use Rattle.spi_commands.specs.Reading.{IsRead};

use crate::NoMemory;
use crate::afterwards::Afterwards;
use crate::answer::{Answer, Stop};
use crate::canonical::shown;
use spi_scope::File;
use spi_show::least_behind;
use spi_text::Text;
use std::alloc::Global;

/// What `upgrade` answers on the file of these bytes.
pub fn upgraded(
    alloc: Global,
    afterwards: Afterwards,
    bytes: &[u8],
    file: File,
) -> Result<Answer, Stop>
    requires sized { length bytes.now ≤ 16_777_216 }
    requires read { IsRead bytes.now file }
    ensures ok { IfOk result (λ answer. UpgradesTo bytes.now answer.status answer.output.items) }
    ensures err { OnErr result (result ≡ Err Stop.NoMemory) }
{
    let file = in_version_2(alloc, file)?;
    let answer = shown(alloc, bytes, &file);
    afterwards.let_go(file);
    answer
}

/// The file that this one is upgraded to.
fn in_version_2(alloc: Global, mut file: File) -> Result<File, NoMemory>
    requires { (file.version ≡ 1) ⊎ (file.version ≡ 2) }
    ensures { IfOk result (λ upgraded. IsUpgrade (meant file) (meant upgraded)) }
{
    if file.version == 1 {
        file.names = respelled(alloc, &file.names)?;
        file.version = 2;
    }
    Ok(file)
}

/// The spellings of these names in version 2.
fn respelled(alloc: Global, names: &[Text]) -> Result<Vec<Text>, NoMemory>
    ensures { IfOk result (λ v. AreRespelled names.now names.now v.items) }
{
    let mut spellings = Vec::new(alloc);
    for name in names {
        spellings.push(spelling(alloc, names, name.as_str())?)?;
    }
    Ok(spellings)
}

/// The spelling of one of these names in version 2.
fn spelling(alloc: Global, names: &[Text], name: &str) -> Result<Text, NoMemory>
    ensures { IfOk result (λ text. IsRespelled names.now name.now text) }
{
    match before_number(name) {
        None => Text::of(alloc, name),
        Some(prefix) => {
            let number = least_behind(alloc, names, prefix)?;
            let word = format!(in alloc; "{prefix}{number}")?;
            Text::of(alloc, word.as_str())
        }
    }
}

/// What stands before the number in the spelling of a word that version 2 reserves and version 1 doesn't.
fn before_number(name: &str) -> Option<&'static str>
    ensures { MatchOption result (¬ IsNewWord name.now)
        (λ prefix. IsNewWord name.now × (prefix.now ≡ name.now ++ codes "_")) }
{
    match name {
        "hash" => Some("hash_"),
        "endmany" => Some("endmany_"),
        "many" => Some("many_"),
        _ => None,
    }
}

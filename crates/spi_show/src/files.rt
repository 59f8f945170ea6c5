// The canonical text of a file.

ghost use Rattle.std.specs.Prelude.{◌≡◌, ◌++◌, IfOk, OnOk};
ghost use Rattle.spi_scope.specs.Files.{meant, steps_in, uses_of};
ghost use Rattle.spi_show.specs.Spells.{spelling};
ghost use Rattle.spi_show.specs.Files.{version_text, words_text, free_text, spelling_line, opponent_text, schedule_part, derivation_part, file_text, IsCanonicalText};

use crate::NoMemory;
use crate::derivations::put_derivation_text;
use crate::processes::put_process;
use crate::shift::shift;
use crate::spell::{NameSpelling, Shift, Spell};
use crate::steps::put_schedule_text;
use spi_rules::Deriv;
use spi_run::Step;
use spi_scope::File;
use spi_term::Process;
use spi_text::Text;
use std::alloc::Global;

fn put_version(version: u32, out: &mut Vec<u8>) -> Result<(), NoMemory>
    ensures { OnOk result (out.new.items ≡ out.old.items ++ version_text version) }
{
    if version == 2 {
        out.extend_from_slice(b"version 2;\n")
    } else {
        Ok(())
    }
}

// Further words, each behind a comma.
fn put_words(words: &[Text], out: &mut Vec<u8>) -> Result<(), NoMemory>
    ensures { OnOk result (out.new.items ≡ out.old.items ++ words_text words.now) }
{
    for word in words {
        out.extend_from_slice(b", ")?;
        out.extend_from_slice(word.as_str().as_bytes())?;
    }
    Ok(())
}

fn put_free(names: &[Text], out: &mut Vec<u8>) -> Result<(), NoMemory>
    ensures { OnOk result (out.new.items ≡ out.old.items ++ free_text names.now) }
{
    match names {
        [] => Ok(()),
        [first, rest @ ..] => {
            out.extend_from_slice(b"free ")?;
            out.extend_from_slice(first.as_str().as_bytes())?;
            put_words(rest, out)?;
            out.extend_from_slice(b";\n")
        }
    }
}

// A process on one line.
fn put_line(spell: &Spell, process: &Process, out: &mut Vec<u8>) -> Result<(), NoMemory>
    ensures { OnOk result (out.new.items ≡ out.old.items ++ spelling_line (spelling spell.now) process.now) }
{
    put_process(spell, process, out)?;
    out.extend_from_slice(b"\n")
}

fn put_opponent(
    spell: &Spell,
    opponent: &Option<Process>,
    out: &mut Vec<u8>,
) -> Result<(), NoMemory>
    ensures { OnOk result (out.new.items ≡ out.old.items ++ opponent_text (spelling spell.now) opponent.now) }
{
    match opponent {
        None => Ok(()),
        Some(process) => {
            out.extend_from_slice(b"opponent ")?;
            put_line(spell, process, out)
        }
    }
}

fn put_schedule(
    alloc: Global,
    schedule: &Option<Vec<Step>>,
    out: &mut Vec<u8>,
) -> Result<(), NoMemory>
    ensures { OnOk result (out.new.items ≡ out.old.items ++ schedule_part (steps_in schedule.now)) }
{
    match schedule {
        None => Ok(()),
        Some(steps) => put_schedule_text(alloc, steps, out),
    }
}

fn put_derivation(
    alloc: Global,
    derivation: &Option<Deriv>,
    out: &mut Vec<u8>,
) -> Result<(), NoMemory>
    ensures { OnOk result (out.new.items ≡ out.old.items ++ derivation_part (uses_of derivation.now)) }
{
    match derivation {
        None => Ok(()),
        Some(d) => put_derivation_text(alloc, d, out),
    }
}

// The text of a file, where the numbers of bound names are moved up.
fn text_of(alloc: Global, by: Shift, file: &File) -> Result<Vec<u8>, NoMemory>
    ensures { IfOk result (λ v. v.items ≡ file_text by (meant file.now)) }
{
    let names = NameSpelling::Named(file.names.as_slice(), by);
    let spell = Spell { alloc, names };
    let mut out = Vec::new(alloc);
    put_version(file.version, &mut out)?;
    put_free(&file.names, &mut out)?;
    out.extend_from_slice(b"process ")?;
    put_line(&spell, &file.process, &mut out)?;
    put_opponent(&spell, &file.opponent, &mut out)?;
    put_schedule(alloc, &file.schedule, &mut out)?;
    put_derivation(alloc, &file.derivation, &mut out)?;
    Ok(out)
}

/// The canonical text of a file: the line `version 2;` where it is of version 2, the free names, the process, the
/// opponent, the schedule and the derivation, where there are any. A free name is spelled as it was, and a bound one with
/// number i is `v` and the number i + s, where s is the least for which no free name is `v` and the digits of a number
/// from s to s + 99,999. Its only error is NoMemory.
pub fn show_file(alloc: Global, file: &File) -> Result<Vec<u8>, NoMemory>
    ensures { IfOk result (λ text. IsCanonicalText (meant file.now) text.items) }
{
    let by = shift(alloc, &file.names)?;
    text_of(alloc, by, file)
}

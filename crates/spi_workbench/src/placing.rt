//! Processes behind the shared names.

ghost use Rattle.std.specs.Prelude.{◌≡◌, List, length, map, IfOk};
ghost use Rattle.spi_tree.specs.Trees as t;
ghost use Rattle.spi_tree.specs.Views.{ty_of, proc_of};
ghost use Rattle.spi_heading.specs.Headings.{Shared as SharedName};
ghost use Rattle.spi_heading.specs.Views.{shared_of};
ghost use Rattle.spi_workbench.specs.Reading.{behind_shared};

use crate::NoMemory;
use spi_heading::Shared;
use spi_text::Text;
use spi_tree::{NewParts, SProc, STy, SWord};
use std::alloc::Global;
use std::mem::replace;

/// `new (x: T);` and a process.
fn behind_one<'b>(
    alloc: Global,
    mut shared: Shared<'b>,
    then: SProc<'b>,
) -> Result<SProc<'b>, NoMemory>
    ensures { IfOk result
        (λ p. proc_of p
        ≡ t.new shared.entry.span shared.entry.name (ty_of shared.entry.ty) (proc_of then.entry)) }
{
    let span = shared.span;
    let word = Text::of(alloc, "")?;
    let name = replace(&mut shared.name, SWord { word, span });
    let ty = replace(&mut shared.ty, STy::Un { span });
    let parts = Box::new(alloc, NewParts { name, ty, then })?;
    Ok(SProc::New { parts, span })
}

/// The process behind a `new` for each shared name.
pub fn behind_all<'b>(
    alloc: Global,
    mut shared: Vec<Shared<'b>>,
    then: SProc<'b>,
) -> Result<SProc<'b>, NoMemory>
    ensures { IfOk result
        (λ p. proc_of p ≡ behind_shared (map shared_of shared.entry.items) (proc_of then.entry)) }
{
    let mut process = then;
    while let Some(last) = shared.pop() {
        process = behind_one(alloc, last, process)?;
    }
    Ok(process)
}

/// Another process in the place of that behind so many `new`s.
pub fn put_behind<'b>(place: &mut SProc<'b>, news: u32, part: SProc<'b>)
    ensures { (ss : List SharedName) (p : t.Proc) → length ss ≡ news → proc_of place.old ≡ behind_shared ss p
        → proc_of place.new ≡ behind_shared ss (proc_of part.entry) }
{
    if news == 0 {
        drop(replace(place, part));
        return;
    }
    if let SProc::New { parts, .. } = place {
        put_behind(&mut parts.then, news - 1, part);
    }
}

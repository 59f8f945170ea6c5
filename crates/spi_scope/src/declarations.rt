//! Declarations.

ghost use Rattle.std.specs.Prelude.{◌≡◌, ◌≤◌, [], ◌∷◌, ◌++◌, map, length, OnOk};
ghost use Rattle.spi_tree.specs.Views.{ty_of, decl_of};
ghost use Rattle.spi_scope.specs.Meaning.{type_in};
ghost use Rattle.spi_scope.specs.Points.{one, ◌⨾◌, declares_type, whole_type, free_point, free_points, with_free, decl_points, names_behind, types_behind, decls_points, all_names, all_types};
ghost use Rattle.spi_scope.specs.Gives.{run};
ghost use Rattle.spi_scope.specs.Leads.{LeadsTo};
ghost use Rattle.spi_scope.specs.State.{abbreviations};

use crate::fault::ScopeFault;
use crate::heads::{add, read_annotation};
use crate::scope::{Abbr, Scope};
use spi_text::Text;
use spi_tree::{Decl, STy, SWord};
use std::alloc::Global;

/// One more free name.
fn declare_name<'t>(alloc: Global, scope: &mut Scope<'t>, word: &'t SWord) -> Result<(), ScopeFault>
    requires few { scope.old.count ≤ 100000 }
    ensures gives { LeadsTo result (run (free_point scope.old.held.names word.entry.now) scope.old.count)
        scope.new.count }
    ensures names { OnOk result (scope.new.held.names ≡ word.entry.now.word ∷ scope.old.held.names) }
    ensures noted { OnOk result (scope.new.held.noted ≡ scope.old.held.noted) }
    ensures types { OnOk result (scope.new.types ≡ scope.old.types) }
    ensures few { OnOk result (scope.new.count ≤ 100000) }
{
    if scope.held.declare(&word.word)? {
        return Err(ScopeFault::NameTwice {
            span: word.span,
            word: word.word.copy(alloc)?,
        });
    }
    add(scope, 1, word.span)?;
    Ok(())
}

/// More free names.
fn declare_more<'t>(
    alloc: Global,
    scope: &mut Scope<'t>,
    more: &'t [SWord],
) -> Result<(), ScopeFault>
    requires few { scope.old.count ≤ 100000 }
    ensures gives { LeadsTo result (run (free_points scope.old.held.names more.entry.now) scope.old.count)
        scope.new.count }
    ensures names { OnOk result (scope.new.held.names ≡ with_free scope.old.held.names more.entry.now) }
    ensures noted { OnOk result (scope.new.held.noted ≡ scope.old.held.noted) }
    ensures types { OnOk result (scope.new.types ≡ scope.old.types) }
    ensures few { OnOk result (scope.new.count ≤ 100000) }
{
    for word in more {
        declare_name(alloc, scope, word)?;
    }
    Ok(())
}

/// One more abbreviation.
fn declare_type<'t>(
    alloc: Global,
    scope: &mut Scope<'t>,
    word: &'t SWord,
    ty: &'t STy,
) -> Result<(), ScopeFault>
    requires few { scope.old.count ≤ 100000 }
    ensures gives { LeadsTo result
        (run (one (declares_type (abbreviations scope.old.types) word.entry.now)
        ⨾ whole_type (abbreviations scope.old.types) scope.old.held.names (ty_of ty.entry.now))
        scope.old.count) scope.new.count }
    ensures held { OnOk result (scope.new.held ≡ scope.old.held) }
    ensures types { OnOk result
        (abbreviations scope.new.types ≡ abbreviations scope.old.types
        ++ record {
          word = word.entry.now.word;
          stands_for =
              type_in (length scope.old.held.names) (abbreviations scope.old.types) scope.old.held.names
              (ty_of ty.entry.now);
        } ∷ []) }
    ensures few { OnOk result (scope.new.count ≤ 100000) }
{
    let text = word.word.as_str();
    match scope.types.get(&text) {
        Some(_) => Err(ScopeFault::TypeTwice {
            span: word.span,
            word: Text::of(alloc, text)?,
        }),
        None => {
            let base = scope.held.len();
            let (ty, nodes) = read_annotation(alloc, scope, base, ty)?;
            scope.types.insert(text, Abbr { ty, nodes })?;
            Ok(())
        }
    }
}

/// One more declaration.
fn declare<'t>(alloc: Global, scope: &mut Scope<'t>, decl: &'t Decl) -> Result<(), ScopeFault>
    requires few { scope.old.count ≤ 100000 }
    ensures gives { LeadsTo result
        (run (decl_points (abbreviations scope.old.types) scope.old.held.names (decl_of decl.entry.now))
        scope.old.count) scope.new.count }
    ensures names { OnOk result
        (scope.new.held.names ≡ names_behind scope.old.held.names (decl_of decl.entry.now)) }
    ensures noted { OnOk result (scope.new.held.noted ≡ scope.old.held.noted) }
    ensures types { OnOk result
        (abbreviations scope.new.types
        ≡ types_behind (abbreviations scope.old.types) scope.old.held.names (decl_of decl.entry.now)) }
    ensures few { OnOk result (scope.new.count ≤ 100000) }
{
    match decl {
        Decl::Free { first, more, .. } => {
            scope.held.reserve(alloc, more.len().saturating_add(1))?;
            declare_name(alloc, scope, first)?;
            declare_more(alloc, scope, more)
        }
        Decl::Abbr { name, ty, .. } => declare_type(alloc, scope, name, ty),
    }
}

/// The declarations of a file.
pub fn declare_all<'t>(
    alloc: Global,
    scope: &mut Scope<'t>,
    decls: &'t [Decl],
) -> Result<(), ScopeFault>
    requires few { scope.old.count ≤ 100000 }
    ensures gives { LeadsTo result
        (run (decls_points (abbreviations scope.old.types) scope.old.held.names (map decl_of decls.entry.now))
        scope.old.count) scope.new.count }
    ensures names { OnOk result
        (scope.new.held.names ≡ all_names scope.old.held.names (map decl_of decls.entry.now)) }
    ensures noted { OnOk result (scope.new.held.noted ≡ scope.old.held.noted) }
    ensures types { OnOk result
        (abbreviations scope.new.types
        ≡ all_types (abbreviations scope.old.types) scope.old.held.names (map decl_of decls.entry.now)) }
    ensures few { OnOk result (scope.new.count ≤ 100000) }
{
    for decl in decls {
        declare(alloc, scope, decl)?;
    }
    Ok(())
}

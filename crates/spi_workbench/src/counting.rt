//! The nodes of a bench: of its heading, and of each edit.

ghost use Rattle.std.specs.Prelude.{◌≡◌, ◌∷◌, [], ◌++◌, map, IfOk, OnOk};
ghost use Rattle.spi_tree.specs.Views.{decl_of};
ghost use Rattle.spi_term.specs.Term.{Ty};
ghost use Rattle.spi_term.specs.Spelling.{ty_nodes, stopped};
ghost use Rattle.spi_heading.specs.Views.{shared_of};
ghost use Rattle.spi_scope.specs.Scope.{Names, Abbreviations};
ghost use Rattle.spi_scope.specs.Points.{decl_points, decls_points, types_behind, all_types};
ghost use Rattle.spi_edits.specs.Views.{edit_of, bench_of};
ghost use Rattle.spi_workbench.specs.Counting.{all_added, heading_nodes, edit_nodes};
ghost use Rattle.spi_workbench.specs.Sizes.{nodes_in_words, shared_size, edit_size, Know};

use crate::NoMemory;
use crate::sizes::{Sizes, process_nodes, type_nodes};
use indexmap::IndexMap;
use spi_edits::{BenchText, Edit};
use spi_heading::Shared;
use spi_tree::{Decl, SWord};
use std::alloc::Global;

/// One more abbreviation is known, unless one of its spelling was.
fn know<'t>(sizes: &mut Sizes<'t>, name: &'t SWord, nodes: u64) -> Result<(), NoMemory>
    ensures { OnOk result
        ((ts : Abbreviations) (a : Ty) → nodes ≡ stopped (ty_nodes a) → Know sizes.old ts
        → Know sizes.new (ts ++ record { word = name.entry.now.word; stands_for = a } ∷ [])) }
{
    let word = name.word.as_str();
    if let None = sizes.get(&word) {
        sizes.insert(word, nodes)?;
    }
    Ok(())
}

/// The nodes of a declaration, whose abbreviation is known behind it.
fn declaration_nodes<'t>(sizes: &mut Sizes<'t>, decl: &'t Decl) -> Result<u64, NoMemory>
    ensures nodes { IfOk result
        (λ n. (ts : Abbreviations) (xs : Names) → Know sizes.old ts
        → n ≡ stopped (all_added (decl_points ts xs (decl_of decl.entry.now)))) }
    ensures know { OnOk result
        ((ts : Abbreviations) (xs : Names) → Know sizes.old ts
        → Know sizes.new (types_behind ts xs (decl_of decl.entry.now))) }
{
    match decl {
        Decl::Free { more, .. } => Ok((more.len() as u64).saturating_add(1)),
        Decl::Abbr { name, ty, .. } => {
            let nodes = type_nodes(sizes, ty);
            know(sizes, name, nodes)?;
            Ok(nodes)
        }
    }
}

/// The nodes of the declarations, whose abbreviations are known behind them.
fn declared_nodes<'t>(sizes: &mut Sizes<'t>, decls: &'t [Decl]) -> Result<u64, NoMemory>
    requires { Know sizes.old [] }
    ensures nodes { IfOk result
        (λ n. n ≡ stopped (all_added (decls_points [] [] (map decl_of decls.entry.now)))) }
    ensures know { OnOk result (Know sizes.new (all_types [] [] (map decl_of decls.entry.now))) }
{
    let mut total: u64 = 0;
    for decl in decls {
        total = total.saturating_add(declaration_nodes(sizes, decl)?);
    }
    Ok(total)
}

/// The nodes of the shared names, each read as a `new`.
fn shared_nodes(sizes: &Sizes, shared: &[Shared]) -> u64
    ensures { result ≡ stopped (shared_size (nodes_in_words sizes.now) (map shared_of shared.now)) }
{
    let mut total: u64 = 0;
    for one in shared {
        total = total.saturating_add(type_nodes(sizes, &one.ty).saturating_add(1));
    }
    total
}

fn put_nodes(sizes: &Sizes, edit: &Edit) -> u64
    ensures { result ≡ stopped (edit_size (nodes_in_words sizes.now) (edit_of edit.now)) }
{
    match edit {
        Edit::Put { part, .. } => process_nodes(sizes, part),
        Edit::Drop { .. } => 0,
    }
}

fn all_put_nodes(alloc: Global, sizes: &Sizes, edits: &[Edit]) -> Result<Vec<u64>, NoMemory>
    ensures { IfOk result
        (λ v. v.items ≡ map (λ e. stopped (edit_size (nodes_in_words sizes.now) (edit_of e))) edits.now) }
{
    let mut nodes = Vec::new(alloc);
    for edit in edits {
        nodes.push(put_nodes(sizes, edit))?;
    }
    Ok(nodes)
}

/// How many nodes a bench has.
#[derive(Drop)]
pub struct Counted {
    /// Those of the heading.
    pub heading: u64,
    /// Those that each edit puts.
    pub edits: Vec<u64>,
}

/// The nodes of the heading and of each edit.
pub fn count_bench(alloc: Global, text: &BenchText) -> Result<Counted, NoMemory>
    ensures heading { IfOk result (λ c. c.heading ≡ stopped (heading_nodes (bench_of text.now))) }
    ensures edits { IfOk result
        (λ c. c.edits.items
        ≡ map (λ e. stopped (edit_nodes (bench_of text.now) (edit_of e))) text.now.edits.items) }
{
    let mut sizes = IndexMap::new(alloc);
    let declared = declared_nodes(&mut sizes, &text.decls)?;
    let heading = declared.saturating_add(shared_nodes(&sizes, &text.shared));
    let edits = all_put_nodes(alloc, &sizes, &text.edits)?;
    Ok(Counted { heading, edits })
}

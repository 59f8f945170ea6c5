//! The file that a tree stands for.

ghost use Rattle.std.specs.Prelude.{◌≡◌, ◌⊎◌, ◌≤◌, [], ◌++◌, map, length, reverse, take, IfOk, IfErr, OnOk};
ghost use Rattle.spi_tree.specs.Trees as t;
ghost use Rattle.spi_tree.specs.Views.{proc_of, decl_of, opponent_of, schedule_of, derivation_of, file_of};
ghost use Rattle.spi_term.specs.View.{shape_of};
ghost use Rattle.spi_term.specs.Spelling.{flat};
ghost use Rattle.spi_scope.specs.declared.fault.ScopeFault.{ScopeFault};
ghost use Rattle.spi_scope.specs.declared.fault.ScopeFault.TheVariants.{NoMemory as OutOfMemory};
ghost use Rattle.spi_scope.specs.Meaning.{process_in};
ghost use Rattle.spi_scope.specs.Marks.{places, scopes};
ghost use Rattle.spi_scope.specs.Parts.{step_in};
ghost use Rattle.spi_scope.specs.Points.{◌⨾◌, process_points, opponent_points, schedule_points, derivation_points, body_points, all_names, all_types};
ghost use Rattle.spi_scope.specs.First.{HasFirst};
ghost use Rattle.spi_scope.specs.StandsFor.{Meant, StandsFor, over_free, opponent_over, schedule_in, derivation_in};
ghost use Rattle.spi_scope.specs.Files.{meant, steps_in, uses_of, marked, marks_of, opponent_places, step_places, rule_places};
ghost use Rattle.spi_scope.specs.Gives.{run};
ghost use Rattle.spi_scope.specs.Leads.{LeadsTo};
ghost use Rattle.spi_scope.specs.State.{abbreviations};
ghost use Rattle.spi_scope.specs.Over.{AreAbbreviationsOver};

use crate::arena::{Arena, put};
use crate::declarations::declare_all;
use crate::derivations::{Uses, read_derivation};
use crate::fault::ScopeFault;
use crate::file::File;
use crate::marks::Marks;
use crate::names::Names;
use crate::processes::read_process;
use crate::room::nodes_of;
use crate::schedules::read_steps;
use crate::scope::Scope;
use crate::trail::Scopes;
use indexmap::IndexMap;
use spi_rules::Deriv;
use spi_run::Step;
use spi_term::{Node, Process};
use spi_text::Span;
use spi_tree::{SDeriv, SProc, SStep, Tree};
use std::alloc::Global;
use std::mem::replace;

/// The process that the nodes spell.
fn laid_out(scope: &Scope, count: u64, nodes: Vec<Node>, p: &SProc) -> Process
    requires ran { run (process_points (abbreviations scope.now.types) scope.now.held.names (proc_of p.now))
        count ≡ Ok scope.now.count }
    requires few { scope.now.count ≤ 100000 }
    requires names { length scope.now.held.names ≤ 100000 }
    requires over { AreAbbreviationsOver (length scope.now.held.names) (abbreviations scope.now.types) }
    requires nodes { map shape_of nodes.items
        ≡ flat 0 (length scope.now.held.names)
        (process_in (λ s. s) (abbreviations scope.now.types) scope.now.held.names (proc_of p.now)) }
    ensures { result ≡ over_free (abbreviations scope.now.types) scope.now.held.names (proc_of p.now) }
{
    Process::spelled(scope.held.len(), nodes)
}

/// A process over the names in scope, and where its nodes stand.
fn read_part<'t>(
    alloc: Global,
    scope: &mut Scope<'t>,
    p: &'t SProc,
) -> Result<(Process, Vec<Span>), ScopeFault>
    requires few { scope.old.count ≤ 100000 }
    requires names { length scope.old.held.names ≤ 100000 }
    requires over { AreAbbreviationsOver (length scope.old.held.names) (abbreviations scope.old.types) }
    ensures gives { LeadsTo result
        (run (process_points (abbreviations scope.old.types) scope.old.held.names (proc_of p.entry.now))
        scope.old.count) scope.new.count }
    ensures process { IfOk result
        (λ x. x.0 ≡ over_free (abbreviations scope.old.types) scope.old.held.names (proc_of p.entry.now)) }
    ensures places { IfOk result (λ x. x.1.items ≡ places (proc_of p.entry.now)) }
    ensures noted { OnOk result
        (scope.new.held.noted ≡ scope.old.held.noted ++ scopes scope.old.held.names (proc_of p.entry.now)) }
    ensures names { OnOk result (scope.new.held.names ≡ scope.old.held.names) }
    ensures types { OnOk result (scope.new.types ≡ scope.old.types) }
    ensures few { OnOk result (scope.new.count ≤ 100000) }
{
    let count = scope.count;
    let room = nodes_of(p);
    let nodes = Vec::with_capacity(alloc, room)?;
    let places = Vec::with_capacity(alloc, room)?;
    let mut arena = Arena { nodes, places };
    read_process(alloc, scope, &mut arena, p)?;
    let Arena { nodes, places } = arena;
    let process = laid_out(scope, count, nodes, p);
    Ok((process, places))
}

/// The opponent, and where its nodes stand.
fn read_opponent<'t>(
    alloc: Global,
    scope: &mut Scope<'t>,
    opponent: &'t Option<SProc>,
) -> Result<(Option<Process>, Vec<Span>), ScopeFault>
    requires few { scope.old.count ≤ 100000 }
    requires names { length scope.old.held.names ≤ 100000 }
    requires over { AreAbbreviationsOver (length scope.old.held.names) (abbreviations scope.old.types) }
    ensures gives { LeadsTo result
        (run (opponent_points (abbreviations scope.old.types) scope.old.held.names
        (opponent_of opponent.entry.now)) scope.old.count) scope.new.count }
    ensures process { IfOk result
        (λ x. x.0 ≡ opponent_over (abbreviations scope.old.types) scope.old.held.names
        (opponent_of opponent.entry.now)) }
    ensures places { IfOk result (λ x. x.1.items ≡ opponent_places (opponent_of opponent.entry.now)) }
    ensures noted { OnOk result
        (take (length scope.old.held.noted) scope.new.held.noted ≡ scope.old.held.noted) }
    ensures few { OnOk result (scope.new.count ≤ 100000) }
{
    match opponent {
        None => Ok((None, Vec::new(alloc))),
        Some(p) => {
            let (process, places) = read_part(alloc, scope, p)?;
            Ok((Some(process), places))
        }
    }
}

/// The schedule, and where its steps stand.
fn read_schedule(
    alloc: Global,
    count: u64,
    schedule: &Option<Vec<SStep>>,
) -> Result<(Option<Vec<Step>>, Vec<Span>), ScopeFault>
    ensures gives { LeadsTo result (run (schedule_points (schedule_of schedule.now)) count) count }
    ensures steps { IfOk result (λ x. steps_in x.0 ≡ schedule_in (schedule_of schedule.now)) }
    ensures places { IfOk result (λ x. x.1.items ≡ step_places (schedule_of schedule.now)) }
{
    match schedule {
        None => Ok((None, Vec::new(alloc))),
        Some(steps) => {
            let (steps, places) = read_steps(alloc, count, steps)?;
            Ok((Some(steps), places))
        }
    }
}

/// The derivation, and where its rule uses stand.
fn read_proof(
    alloc: Global,
    count: u64,
    derivation: &Option<SDeriv>,
) -> Result<(Option<Deriv>, Vec<Span>), ScopeFault>
    ensures gives { LeadsTo result (run (derivation_points (derivation_of derivation.now)) count) count }
    ensures uses { IfOk result (λ x. uses_of x.0 ≡ derivation_in (derivation_of derivation.now)) }
    ensures places { IfOk result (λ x. x.1.items ≡ rule_places (derivation_of derivation.now)) }
{
    match derivation {
        None => Ok((None, Vec::new(alloc))),
        Some(d) => {
            let mut read = Uses {
                uses: Vec::new(alloc),
                places: Vec::new(alloc),
            };
            read_derivation(alloc, count, &mut read, d)?;
            let Uses { uses, places } = read;
            Ok((Some(Deriv { uses }), places))
        }
    }
}

/// The opponent, the schedule and the derivation, put into the file with where their parts stand.
fn read_rest<'t>(
    alloc: Global,
    scope: &mut Scope<'t>,
    tree: &'t Tree,
    file: &mut File,
) -> Result<(), ScopeFault>
    requires few { scope.old.count ≤ 100000 }
    requires names { length scope.old.held.names ≤ 100000 }
    requires over { AreAbbreviationsOver (length scope.old.held.names) (abbreviations scope.old.types) }
    ensures gives { LeadsTo result
        (run (opponent_points (abbreviations scope.old.types) scope.old.held.names
        (opponent_of tree.entry.now.opponent) ⨾ schedule_points (schedule_of tree.entry.now.schedule)
        ⨾ derivation_points (derivation_of tree.entry.now.derivation)) scope.old.count) scope.new.count }
    ensures opponent { OnOk result
        (file.new.opponent
        ≡ opponent_over (abbreviations scope.old.types) scope.old.held.names
        (opponent_of tree.entry.now.opponent)) }
    ensures schedule { OnOk result
        (steps_in file.new.schedule ≡ schedule_in (schedule_of tree.entry.now.schedule)) }
    ensures derivation { OnOk result
        (uses_of file.new.derivation ≡ derivation_in (derivation_of tree.entry.now.derivation)) }
    ensures opponent_places { OnOk result
        (file.new.marks.opponent.items ≡ opponent_places (opponent_of tree.entry.now.opponent)) }
    ensures step_places { OnOk result
        (file.new.marks.steps.items ≡ step_places (schedule_of tree.entry.now.schedule)) }
    ensures rule_places { OnOk result
        (file.new.marks.rules.items ≡ rule_places (derivation_of tree.entry.now.derivation)) }
    ensures version { OnOk result (file.new.version ≡ file.old.version) }
    ensures names { OnOk result (file.new.names ≡ file.old.names) }
    ensures process { OnOk result (file.new.process ≡ file.old.process) }
    ensures process_places { OnOk result (file.new.marks.process ≡ file.old.marks.process) }
    ensures noted { OnOk result
        (take (length scope.old.held.noted) scope.new.held.noted ≡ scope.old.held.noted) }
{
    let (opponent, places) = read_opponent(alloc, scope, &tree.opponent)?;
    put(&mut file.opponent, opponent);
    put(&mut file.marks.opponent, places);
    let (schedule, places) = read_schedule(alloc, scope.count, &tree.schedule)?;
    put(&mut file.schedule, schedule);
    put(&mut file.marks.steps, places);
    let (derivation, places) = read_proof(alloc, scope.count, &tree.derivation)?;
    put(&mut file.derivation, derivation);
    put(&mut file.marks.rules, places);
    Ok(())
}

/// What comes after the declarations.
fn read_body<'t>(alloc: Global, scope: &mut Scope<'t>, tree: &'t Tree) -> Result<File, ScopeFault>
    requires few { scope.old.count ≤ 100000 }
    requires names { length scope.old.held.names ≤ 100000 }
    requires over { AreAbbreviationsOver (length scope.old.held.names) (abbreviations scope.old.types) }
    requires noted { scope.old.held.noted ≡ [] }
    ensures gives { LeadsTo result
        (run (body_points (abbreviations scope.old.types) scope.old.held.names (file_of tree.entry.now))
        scope.old.count) scope.new.count }
    ensures version { IfOk result (λ f. f.version ≡ tree.entry.now.version) }
    ensures names { IfOk result (λ f. f.names.items ≡ reverse scope.old.held.names) }
    ensures process { IfOk result
        (λ f. f.process
        ≡ over_free (abbreviations scope.old.types) scope.old.held.names (proc_of tree.entry.now.process)) }
    ensures opponent { IfOk result
        (λ f. f.opponent
        ≡ opponent_over (abbreviations scope.old.types) scope.old.held.names
        (opponent_of tree.entry.now.opponent)) }
    ensures schedule { IfOk result
        (λ f. steps_in f.schedule ≡ schedule_in (schedule_of tree.entry.now.schedule)) }
    ensures derivation { IfOk result
        (λ f. uses_of f.derivation ≡ derivation_in (derivation_of tree.entry.now.derivation)) }
    ensures process_places { IfOk result
        (λ f. f.marks.process.items ≡ places (proc_of tree.entry.now.process)) }
    ensures opponent_places { IfOk result
        (λ f. f.marks.opponent.items ≡ opponent_places (opponent_of tree.entry.now.opponent)) }
    ensures step_places { IfOk result
        (λ f. f.marks.steps.items ≡ step_places (schedule_of tree.entry.now.schedule)) }
    ensures rule_places { IfOk result
        (λ f. f.marks.rules.items ≡ rule_places (derivation_of tree.entry.now.derivation)) }
    ensures scopes { IfOk result
        (λ f. f.marks.scopes ≡ scopes scope.old.held.names (proc_of tree.entry.now.process)) }
{
    let names = scope.held.texts(alloc)?;
    let (process, process_places) = read_part(alloc, scope, &tree.process)?;
    let nodes = scope.held.nodes();
    let mut file = File {
        version: tree.version,
        names,
        process,
        opponent: None,
        schedule: None,
        derivation: None,
        marks: Marks {
            process: process_places,
            opponent: Vec::new(alloc),
            steps: Vec::new(alloc),
            rules: Vec::new(alloc),
            scopes: Scopes::new(alloc),
        },
    };
    read_rest(alloc, scope, tree, &mut file)?;
    let held = replace(&mut scope.held, Names::new(alloc));
    put(&mut file.marks.scopes, held.into_scopes(nodes));
    Ok(file)
}

/// The file that the tree stands for, or the tree's first fault. It goes through the tree once, and expands an
/// abbreviation only where the type stays within 1,000 nodes.
pub fn resolve(alloc: Global, tree: &Tree) -> Result<File, ScopeFault>
    ensures stands { IfOk result (λ f. StandsFor (file_of tree.now) (meant f)) }
    ensures marks { IfOk result (λ f. marked f ≡ marks_of (file_of tree.now)) }
    ensures fault { IfErr result (λ e. (e ≡ OutOfMemory) ⊎ HasFirst (file_of tree.now) e) }
{
    let mut scope = Scope {
        held: Names::new(alloc),
        types: IndexMap::new(alloc),
        count: 0,
    };
    declare_all(alloc, &mut scope, &tree.decls)?;
    let file = read_body(alloc, &mut scope, tree)?;
    Ok(file)
}

/// Each tree stands for one file or has one first fault, and never both.
pub fn one_or_other()
    ensures some { (tree : t.File)
        → ((file : Meant) × StandsFor tree file) ⊎ ((fault : ScopeFault) × HasFirst tree fault) }
    ensures never_both { (tree : t.File) (file : Meant) (fault : ScopeFault) → StandsFor tree file
        → HasFirst tree fault → ⊥ }
    ensures one_file { (tree : t.File) (file other : Meant) → StandsFor tree file → StandsFor tree other
        → file ≡ other }
    ensures one_fault { (tree : t.File) (fault other : ScopeFault) → HasFirst tree fault → HasFirst tree other
        → fault ≡ other }
{}

//! A bench before any edit, and its edits up to the first that is refused.

ghost use Rattle.std.specs.Prelude.{◌≡◌, ◌<◌, ◌≤◌, ℕ, [], length, IfOk, IfErr};
ghost use Rattle.spi_tree.specs.Trees as t;
ghost use Rattle.spi_tree.specs.Views.{file_of};
ghost use Rattle.spi_scope.specs.StandsFor.{StandsFor};
ghost use Rattle.spi_scope.specs.Files.{meant};
ghost use Rattle.spi_edits.specs.Edits.{Bench as Written};
ghost use Rattle.spi_edits.specs.Views.{bench_of, edit_of};
ghost use Rattle.spi_workbench.specs.Reading.{file_with, heading_file, bench_after};
ghost use Rattle.spi_term.specs.Spelling.{stopped};
ghost use Rattle.spi_scope.specs.First.{IsClean};
ghost use Rattle.spi_workbench.specs.Counting.{heading_nodes};
ghost use Rattle.spi_workbench.specs.Answers.{edit_span, IsBenchAnswer, RefusesEdits};
ghost use Rattle.spi_workbench.specs.Work.{IsAt, StartsEdits};

use crate::NoMemory;
use crate::answer::{Answer, Refusal, Verdicts};
use crate::behind::types_before;
use crate::counting::{Counted, count_bench};
use crate::judging::{Work, judge_all, read_file};
use crate::placing::behind_all;
use spi_bench::Bench;
use spi_edits::{BenchText, Edit};
use spi_infer::Steps;
use spi_scope::File;
use spi_text::Span;
use spi_tree::{SProc, Tree};
use std::alloc::Global;
use std::marker::Brand;
use std::mem::replace;
use std::sync::ledger::{Blank, Ledger};

/// The tree of the heading, whose declarations and shared names are moved out of the text.
fn heading_tree<'b>(alloc: Global, text: &mut BenchText<'b>, end: u32) -> Result<Tree<'b>, NoMemory>
    ensures tree { IfOk result (λ f. file_of f ≡ heading_file (bench_of text.old) end) }
    ensures edits { text.new.edits ≡ text.old.edits }
{
    let span = Span { from: end, to: end };
    let decls = replace(&mut text.decls, Vec::new(alloc));
    let shared = replace(&mut text.shared, Vec::new(alloc));
    let process = behind_all(alloc, shared, SProc::Stop { span })?;
    Ok(Tree {
        version: text.version,
        decls,
        process,
        opponent: None,
        schedule: None,
        derivation: None,
        span: text.span,
    })
}

/// The bench before any edit.
fn first_bench(alloc: Global, file: &File, news: u32) -> Result<Bench, NoMemory>
    requires few { news ≤ 16 }
    requires stands { (b : Written) × (p : t.Proc) × StandsFor (file_with b p) (meant file.now)
        × (length b.shared ≡ news) }
    ensures { IfOk result (λ q. (b : Written) (p : t.Proc) → StandsFor (file_with b p) (meant file.now)
        → length b.shared ≡ news → q ≡ bench_after b []) }
{
    let types = types_before(alloc, &file.process, news)?;
    let _nodes = file.process.len();
    let bench = Bench::new(alloc, file.process.names(), types)?;
    Ok(bench)
}

/// The work before any edit, or the first fault of the heading; `end` is the number of bytes of the bench's
/// text, and `count` how many nodes its heading has.
pub fn start<'b>(
    alloc: Global,
    text: &mut BenchText<'b>,
    end: u32,
    count: u64,
) -> Result<Result<Work<'b>, Refusal>, NoMemory>
    requires few { length text.old.shared.items ≤ 16 }
    requires count { count ≡ stopped (heading_nodes (bench_of text.old)) }
    ensures ok { IfOk result (λ r. IfOk r (λ w. IsAt (bench_of text.old) [] w
        × IsClean (heading_file (bench_of text.old) end))) }
    ensures err { IfOk result (λ r. IfErr r (λ e. RefusesEdits (bench_of text.old) end e)) }
    ensures edits { text.new.edits ≡ text.old.edits }
{
    let news = text.shared.len() as u32;
    let tree = heading_tree(alloc, text, end)?;
    match read_file(alloc, &tree)? {
        Ok(file) => {
            let bench = first_bench(alloc, &file, news)?;
            Ok(Ok(Work {
                tree,
                news,
                bench,
                count,
            }))
        }
        Err(fault) => Ok(Err(Refusal::Scope(fault))),
    }
}

/// Where an edit stands.
fn edit_place(edit: &Edit) -> Span
    ensures { result ≡ edit_span (edit_of edit.now) }
{
    match edit {
        Edit::Put { span, .. } => *span,
        Edit::Drop { span, .. } => *span,
    }
}

/// The edits, behind a heading that stands.
fn judge_edits_over<'b, L: Ledger>(
    alloc: Global,
    mut work: Work<'b>,
    mut text: BenchText<'b>,
    counted: Counted,
    blank: Blank,
) -> Result<Answer, NoMemory>
    requires name { blank.name ≡ L.name }
    requires parts { blank.parts ≡ L.parts }
    requires some { 0 < blank.parts }
    requires starts { (b : Written) × (end : ℕ) × StartsEdits b end work text counted }
    ensures { IfOk result (λ a. (b : Written) (end : ℕ) → StartsEdits b end work.entry text.entry counted
        → IsBenchAnswer b end a) }
{
    if text.edits.len() > 1000 {
        return Ok(Answer::Refused(Refusal::TooManyEdits {
            span: edit_place(&text.edits[1000]),
            count: text.edits.len() as u64,
        }));
    }
    let mut steps = Steps::<L>::new(blank);
    match judge_all(
        alloc,
        &mut work,
        &mut text.edits,
        &counted.edits,
        &mut steps,
    )? {
        Ok(each) => {
            let last = work.bench.verdict();
            Ok(Answer::Judged(Verdicts { each, last }))
        }
        Err(refusal) => Ok(Answer::Refused(refusal)),
    }
}

/// What the bench, of `end` bytes, answers: a verdict after each edit, and one in the end; or its first
/// refusal. Want of memory is the one fault. Each part is read behind the declarations and the shared names,
/// whose nodes are visited again for it. No edit visits the parts that are kept.
pub fn judge_edits(alloc: Global, mut text: BenchText<'_>, end: u32) -> Result<Answer, NoMemory>
    ensures { IfOk result (IsBenchAnswer (bench_of text.entry) end) }
{
    if text.shared.len() > 16 {
        return Ok(Answer::Refused(Refusal::TooManyShared {
            span: text.shared[16].name.span,
            count: text.shared.len() as u64,
        }));
    }
    let counted = count_bench(alloc, &text)?;
    match start(alloc, &mut text, end, counted.heading)? {
        Ok(work) => judge_edits_over::<Brand>(alloc, work, text, counted, Blank::new(1)),
        Err(refusal) => Ok(Answer::Refused(refusal)),
    }
}

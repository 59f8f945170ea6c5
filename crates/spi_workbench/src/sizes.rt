//! How many nodes trees have.

ghost use Rattle.std.specs.Prelude.{◌≡◌, ◌+◌, map};
ghost use Rattle.spi_tree.specs.Trees.{msgs_of_list, fields_of_list};
ghost use Rattle.spi_tree.specs.Views.{msg_of, atom_of, ty_of, field_of, last_of, proc_of};
ghost use Rattle.spi_term.specs.Spelling.{stopped};
ghost use Rattle.spi_workbench.specs.Sizes.{nodes_in_words, msg_size, msgs_size, atom_size, atoms_size, ty_size, fields_size, last_size, form_size, proc_size};

use indexmap::IndexMap;
use spi_tree::{Last, SAtom, SField, SMsg, SProc, STy};

/// How many nodes each abbreviation has.
pub type Sizes<'t> = IndexMap<&'t str, u64>;

fn one_more(below: u64) -> u64
    ensures { result ≡ stopped (1 + below) }
{
    below.saturating_add(1)
}

/// A node over two parts.
fn one_over(first: u64, second: u64) -> u64
    ensures { result ≡ stopped (1 + (first + second)) }
{
    first.saturating_add(second).saturating_add(1)
}

/// How many nodes the message has. The count stops at the greatest `u64`.
#[cycle(messages)]
pub fn message_nodes(m: &SMsg) -> u64
    ensures { result ≡ stopped (msg_size (msg_of m.now)) }
{
    match m {
        SMsg::Name { .. } | SMsg::Placed { .. } | SMsg::Unit { .. } | SMsg::Num { .. } => 1,
        SMsg::Tuple { parts, .. } => {
            let rest = message_nodes(&parts.second).saturating_add(messages_nodes(parts.more));
            one_over(message_nodes(&parts.first), rest)
        }
        SMsg::Inl { part, .. } => one_more(message_nodes(part)),
        SMsg::Inr { part, .. } => one_more(message_nodes(part)),
        SMsg::Enc { parts, .. } => one_over(message_nodes(&parts.body), message_nodes(&parts.key)),
        SMsg::Hash { part, .. } => one_more(message_nodes(part)),
    }
}

/// The components of a tuple behind the first two, with a pair for each.
#[cycle(messages)]
fn messages_nodes(ms: &[SMsg]) -> u64
    ensures { result ≡ stopped (msgs_size (msgs_of_list (map msg_of ms.now))) }
{
    let mut total: u64 = 0;
    for m in ms {
        total = one_over(total, message_nodes(m));
    }
    total
}

fn atom_nodes(a: &SAtom) -> u64
    ensures { result ≡ stopped (atom_size (atom_of a.now)) }
{
    match a {
        SAtom::End { label, .. } => one_more(message_nodes(label)),
        SAtom::Check { nonce, .. } => one_more(message_nodes(nonce)),
        SAtom::Many { label, .. } => one_more(message_nodes(label)),
    }
}

fn atoms_nodes(es: &[SAtom]) -> u64
    ensures { result ≡ stopped (atoms_size (map atom_of es.now)) }
{
    let mut total: u64 = 0;
    for a in es {
        total = total.saturating_add(atom_nodes(a));
    }
    total
}

/// The nodes of an abbreviation's type, and of `Un` where it isn't known.
fn abbreviation_nodes(sizes: &Sizes, word: &str) -> u64
    ensures { result ≡ nodes_in_words sizes.now word.now }
{
    match sizes.get(&word) {
        None => 1,
        Some(nodes) => *nodes,
    }
}

/// How many nodes the type has, with its abbreviations expanded. The count stops at the greatest `u64`.
#[cycle(types)]
pub fn type_nodes(sizes: &Sizes, t: &STy) -> u64
    ensures { result ≡ stopped (ty_size (nodes_in_words sizes.now) (ty_of t.now)) }
{
    match t {
        STy::Un { .. } | STy::Unit { .. } => 1,
        STy::Tuple { parts, .. } => {
            let last = last_nodes(sizes, &parts.last);
            let rest = fields_nodes(sizes, parts.more).saturating_add(last);
            one_over(type_nodes(sizes, &parts.first), rest)
        }
        STy::Sum { parts, .. } => {
            let right = type_nodes(sizes, &parts.right);
            one_over(type_nodes(sizes, &parts.left), right)
        }
        STy::Key { part, .. } => one_more(type_nodes(sizes, part)),
        STy::Nonce { effect, .. } => one_more(atoms_nodes(effect.atoms)),
        STy::Abbr { word, .. } => abbreviation_nodes(sizes, word.as_str()),
        STy::Placed { name } => abbreviation_nodes(sizes, name.word.as_str()),
    }
}

/// Components of a tuple type, with a pair for each.
#[cycle(types)]
fn fields_nodes(sizes: &Sizes, fs: &[SField]) -> u64
    ensures { result
        ≡ stopped (fields_size (nodes_in_words sizes.now) (fields_of_list (map field_of fs.now))) }
{
    let mut total: u64 = 0;
    for f in fs {
        total = one_over(total, type_nodes(sizes, &f.ty));
    }
    total
}

#[cycle(types)]
fn last_nodes(sizes: &Sizes, end: &Last) -> u64
    ensures { result ≡ stopped (last_size (nodes_in_words sizes.now) (last_of end.now)) }
{
    match end {
        Last::Bare(ty) => type_nodes(sizes, ty),
        Last::Named(_, ty) => type_nodes(sizes, ty),
    }
}

/// Two messages under one node.
fn paired_nodes(m: &SMsg, n: &SMsg) -> u64
    ensures { result ≡ stopped (1 + (msg_size (msg_of m.now) + msg_size (msg_of n.now))) }
{
    one_over(message_nodes(m), message_nodes(n))
}

/// A message and an annotation under one node.
fn typed_nodes(sizes: &Sizes, m: &SMsg, t: &STy) -> u64
    ensures { result
        ≡ stopped (1 + (msg_size (msg_of m.now) + ty_size (nodes_in_words sizes.now) (ty_of t.now))) }
{
    one_over(message_nodes(m), type_nodes(sizes, t))
}

/// The nodes of a form without the processes behind it: its own, and those of its messages and its annotations.
fn form_nodes(sizes: &Sizes, p: &SProc) -> u64
    ensures { result ≡ stopped (form_size (nodes_in_words sizes.now) (proc_of p.now)) }
{
    match p {
        SProc::Par { .. } | SProc::Group { .. } | SProc::Stop { .. } => 1,
        SProc::Out { parts, .. } => paired_nodes(&parts.channel, &parts.datum),
        SProc::OutThen { parts, .. } => one_more(paired_nodes(&parts.channel, &parts.datum)),
        SProc::Inp { parts, .. } | SProc::Repeat { parts, .. } => {
            typed_nodes(sizes, &parts.channel, &parts.ty)
        }
        SProc::Split { parts, .. } => {
            let second = type_nodes(sizes, &parts.right_ty);
            typed_nodes(sizes, &parts.whole, &parts.left_ty).saturating_add(second)
        }
        SProc::Case { parts, .. } => {
            let second = type_nodes(sizes, &parts.right_ty);
            typed_nodes(sizes, &parts.whole, &parts.left_ty).saturating_add(second)
        }
        SProc::Match { parts, .. } => {
            let right = type_nodes(sizes, &parts.right_ty);
            let second = message_nodes(&parts.equal).saturating_add(right);
            typed_nodes(sizes, &parts.whole, &parts.left_ty).saturating_add(second)
        }
        SProc::Decrypt { parts, .. } => {
            let key = message_nodes(&parts.key);
            typed_nodes(sizes, &parts.whole, &parts.ty).saturating_add(key)
        }
        SProc::Check { parts, .. } => paired_nodes(&parts.whole, &parts.nonce),
        SProc::Begin { parts, .. } | SProc::End { parts, .. } | SProc::EndMany { parts, .. } => {
            one_more(message_nodes(&parts.label))
        }
        SProc::Cast { parts, .. } => typed_nodes(sizes, &parts.whole, &parts.ty),
        SProc::New { parts, .. } => one_more(type_nodes(sizes, &parts.ty)),
    }
}

/// How many nodes the process has, with the abbreviations expanded. The count stops at the greatest `u64`.
pub fn process_nodes(sizes: &Sizes, p: &SProc) -> u64
    ensures { result ≡ stopped (proc_size (nodes_in_words sizes.now) (proc_of p.now)) }
{
    let form = form_nodes(sizes, p);
    match p {
        SProc::Out { .. } | SProc::Stop { .. } => form,
        SProc::Par { parts, .. } | SProc::Group { parts, .. } => {
            let rest = process_nodes(sizes, &parts.rest);
            form.saturating_add(process_nodes(sizes, &parts.first))
                .saturating_add(rest)
        }
        SProc::Case { parts, .. } => {
            let rest = process_nodes(sizes, &parts.on_right);
            form.saturating_add(process_nodes(sizes, &parts.on_left))
                .saturating_add(rest)
        }
        SProc::OutThen { parts, .. } => form.saturating_add(process_nodes(sizes, &parts.then)),
        SProc::Inp { parts, .. } | SProc::Repeat { parts, .. } => {
            form.saturating_add(process_nodes(sizes, &parts.then))
        }
        SProc::Split { parts, .. } => form.saturating_add(process_nodes(sizes, &parts.then)),
        SProc::Match { parts, .. } => form.saturating_add(process_nodes(sizes, &parts.then)),
        SProc::Decrypt { parts, .. } => form.saturating_add(process_nodes(sizes, &parts.then)),
        SProc::Check { parts, .. } => form.saturating_add(process_nodes(sizes, &parts.then)),
        SProc::Begin { parts, .. } | SProc::End { parts, .. } | SProc::EndMany { parts, .. } => {
            form.saturating_add(process_nodes(sizes, &parts.then))
        }
        SProc::Cast { parts, .. } => form.saturating_add(process_nodes(sizes, &parts.then)),
        SProc::New { parts, .. } => form.saturating_add(process_nodes(sizes, &parts.then)),
    }
}

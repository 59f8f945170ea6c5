//! The part of a process that stands behind its first `new`s, and the types that these make.

ghost use Rattle.std.specs.Prelude.{◌≡◌, ◌+◌, ◌≤◌, map, take, IfOk};
ghost use Rattle.spi_term.specs.Term.{process_size};
ghost use Rattle.spi_term.specs.Spelling.{Spelling, spelled};
ghost use Rattle.spi_term.specs.View.{ty as type_value, shape_of_form, shape_of};
ghost use Rattle.spi_workbench.specs.Behind.{opening_form, plain_form, kind_of_form, earlier, IsEarlier, StandsBehind, type_made};

use crate::NoMemory;
use spi_term::{Form, Node, Process, Ty};
use std::alloc::Global;

/// A form that takes a message apart: its parts, and its process so many places earlier.
fn opening_earlier(alloc: Global, form: &Form, n: u32) -> Result<Form, NoMemory>
    requires { kind_of_form (shape_of_form 0 form.now) ≡ opening_form }
    ensures { IfOk result (λ f. IsEarlier n form.now f) }
{
    Ok(match form {
        Form::Split {
            whole,
            first,
            second,
            body,
        } => Form::Split {
            whole: whole.copy(alloc)?,
            first: first.copy(alloc)?,
            second: second.copy(alloc)?,
            body: body.saturating_sub(n),
        },
        Form::Select {
            whole,
            first,
            equal,
            second,
            body,
        } => Form::Select {
            whole: whole.copy(alloc)?,
            first: first.copy(alloc)?,
            equal: Box::new(alloc, equal.copy(alloc)?)?,
            second: Box::new(alloc, second.copy(alloc)?)?,
            body: body.saturating_sub(n),
        },
        Form::Decrypt {
            whole,
            ty,
            key,
            body,
        } => Form::Decrypt {
            whole: whole.copy(alloc)?,
            ty: ty.copy(alloc)?,
            key: key.copy(alloc)?,
            body: body.saturating_sub(n),
        },
        _ => unreachable!(),
    })
}

/// Another form with one process: its parts, and its process so many places earlier.
fn plain_earlier(alloc: Global, form: &Form, n: u32) -> Result<Form, NoMemory>
    requires { kind_of_form (shape_of_form 0 form.now) ≡ plain_form }
    ensures { IfOk result (λ f. IsEarlier n form.now f) }
{
    Ok(match form {
        Form::Recv { channel, ty, body } => Form::Recv {
            channel: channel.copy(alloc)?,
            ty: ty.copy(alloc)?,
            body: body.saturating_sub(n),
        },
        Form::Serve { channel, ty, body } => Form::Serve {
            channel: channel.copy(alloc)?,
            ty: ty.copy(alloc)?,
            body: body.saturating_sub(n),
        },
        Form::Check { whole, nonce, body } => Form::Check {
            whole: whole.copy(alloc)?,
            nonce: nonce.copy(alloc)?,
            body: body.saturating_sub(n),
        },
        Form::Begin { label, body } => Form::Begin {
            label: label.copy(alloc)?,
            body: body.saturating_sub(n),
        },
        Form::End { label, body } => Form::End {
            label: label.copy(alloc)?,
            body: body.saturating_sub(n),
        },
        Form::EndMany { label, body } => Form::EndMany {
            label: label.copy(alloc)?,
            body: body.saturating_sub(n),
        },
        Form::Cast { whole, ty, body } => Form::Cast {
            whole: whole.copy(alloc)?,
            ty: ty.copy(alloc)?,
            body: body.saturating_sub(n),
        },
        Form::Fresh { ty, body } => Form::Fresh {
            ty: ty.copy(alloc)?,
            body: body.saturating_sub(n),
        },
        _ => unreachable!(),
    })
}

/// A form: its parts, and its processes so many places earlier.
fn form_earlier(alloc: Global, form: &Form, n: u32) -> Result<Form, NoMemory>
    ensures { IfOk result (λ f. IsEarlier n form.now f) }
{
    Ok(match form {
        Form::Send { channel, datum } => Form::Send {
            channel: channel.copy(alloc)?,
            datum: datum.copy(alloc)?,
        },
        Form::Branch {
            whole,
            left,
            right,
            on_left,
            on_right,
        } => Form::Branch {
            whole: whole.copy(alloc)?,
            left: left.copy(alloc)?,
            right: right.copy(alloc)?,
            on_left: on_left.saturating_sub(n),
            on_right: on_right.saturating_sub(n),
        },
        Form::Par { first, rest } => Form::Par {
            first: first.saturating_sub(n),
            rest: rest.saturating_sub(n),
        },
        Form::Stop => Form::Stop,
        Form::Split { .. } | Form::Select { .. } | Form::Decrypt { .. } => {
            opening_earlier(alloc, form, n)?
        }
        Form::Recv { .. }
        | Form::Serve { .. }
        | Form::Check { .. }
        | Form::Begin { .. }
        | Form::End { .. }
        | Form::EndMany { .. }
        | Form::Cast { .. }
        | Form::Fresh { .. } => plain_earlier(alloc, form, n)?,
    })
}

/// The node, whose processes stand so many places earlier.
fn node_earlier(alloc: Global, node: &Node, n: u32) -> Result<Node, NoMemory>
    ensures { IfOk result (λ r. shape_of r ≡ earlier n (shape_of node.now)) }
{
    let form = form_earlier(alloc, &node.form, n)?;
    Ok(Node {
        scope: node.scope,
        form,
    })
}

/// The type that a `new` makes, and `Un` at another node.
fn made_at(alloc: Global, node: &Node) -> Result<Ty, NoMemory>
    ensures { IfOk result (λ t. type_value t ≡ type_made (shape_of node.now)) }
{
    match &node.form {
        Form::Fresh { ty, .. } => ty.copy(alloc),
        _ => Ok(Ty::Un),
    }
}

/// The process behind the first nodes, each of which is a `new`, over the free names and those that they make.
pub fn part_behind(alloc: Global, whole: &Process, news: u32) -> Result<Process, NoMemory>
    requires stands { (p : Spelling) × StandsBehind news whole.now p }
    requires few { whole.now.names + news ≤ 100000 }
    ensures { IfOk result (λ p. StandsBehind news whole.now p) }
{
    let mut nodes = Vec::new(alloc);
    for id in news..whole.len() {
        nodes.push(node_earlier(alloc, whole.node(id), news)?)?;
    }
    match Process::from_nodes(whole.names() + news, nodes) {
        Some(part) => Ok(part),
        None => unreachable!(),
    }
}

/// The types that the first nodes make.
pub fn types_before(alloc: Global, whole: &Process, news: u32) -> Result<Vec<Ty>, NoMemory>
    requires some { news ≤ process_size whole.now.process }
    ensures { IfOk result
        (λ v. map type_value v.items
        ≡ map type_made (take news (spelled whole.now.names whole.now.process))) }
{
    let mut types = Vec::new(alloc);
    for id in 0..news {
        types.push(made_at(alloc, whole.node(id))?)?;
    }
    Ok(types)
}

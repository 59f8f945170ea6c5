//! Opponents: processes without begin, end and endmany, with `Un` for each annotation.
#![tactic(auto)]

ghost use Rattle.std.specs.Prelude.{◌≡◌, ◌↔◌, IsTrue, IfErr, IsOk};
ghost use Rattle.spi_term.specs.View.{ty, shape_of};
ghost use Rattle.spi_term.specs.Spelling.{spelled};
ghost use Rattle.spi_run.specs.Opponent.{IsUn, IsOpponent};
ghost use Rattle.spi_opponent.specs.Allowed.{Allowed, IsFirstOffence};

use spi_term::{Form, Node, Process, Ty};
use thiserror::Error;

/// The process is no opponent. `node` is the number of the first node in preorder, from 0, that begins or ends or
/// has an annotation other than `Un`.
#[derive(Debug, Drop, Error)]
#[error("node {node} is in no opponent")]
pub struct NotOpponent {
    pub node: u32,
}

/// Whether a process is an opponent: it has neither begin, end nor endmany, and each of its annotations is `Un`.
/// One pass over the nodes, and no memory.
pub fn is_opponent(process: &Process) -> Result<(), NotOpponent>
    ensures opponent { IsOk result ↔ IsOpponent process.now.process }
    ensures first { IfErr result
        (λ fault. IsFirstOffence (spelled process.now.names process.now.process) fault.node) }
{
    for node in 0..process.len() {
        if !is_allowed(process.node(node)) {
            return Err(NotOpponent { node });
        }
    }
    Ok(())
}

fn is_un(t: &Ty) -> bool
    ensures { IsTrue result ↔ IsUn (ty t.now) }
{
    match t {
        Ty::Un => true,
        Ty::Unit => false,
        Ty::Pair(_) => false,
        Ty::Sum(_) => false,
        Ty::Key(_) => false,
        Ty::Nonce(_) => false,
    }
}

// Whether an opponent may have this node.
fn is_allowed(node: &Node) -> bool
    ensures { IsTrue result ↔ Allowed (shape_of node.now) }
{
    match &node.form {
        Form::Send { .. } | Form::Check { .. } | Form::Par { .. } | Form::Stop => true,
        Form::Begin { .. } | Form::End { .. } | Form::EndMany { .. } => false,
        Form::Recv { ty, .. }
        | Form::Serve { ty, .. }
        | Form::Decrypt { ty, .. }
        | Form::Cast { ty, .. }
        | Form::Fresh { ty, .. } => is_un(ty),
        Form::Split { first, second, .. } => is_un(first) && is_un(second),
        Form::Select { first, second, .. } => is_un(first) && is_un(second),
        Form::Branch { left, right, .. } => is_un(left) && is_un(right),
    }
}

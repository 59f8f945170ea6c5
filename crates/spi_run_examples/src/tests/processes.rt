// Small processes over one free name, a, and the one assertion.

ghost use Rattle.std.specs.Prelude.{◌≡◌, ◌≤◌, All, IfOk, vec_len};
ghost use Rattle.spi_term.specs.Spelling.{HasSmallParts};
ghost use Rattle.spi_term.specs.View.{shape_of};

use spi_term::{Form, Msg, Node, Process, Ty};
use std::alloc::{AllocError, Global};
use std::process::Abort;

/// Memory ran out. In these tests also: the nodes spell no process.
pub type NoMemory = AllocError;

/// Fails where this doesn't hold, and says what it is.
pub fn shows(rt: &impl Abort, what: &str, holds: Result<bool, NoMemory>) {
    assert!(rt; matches!(holds, Ok(true)), "{what}");
}

fn of_nodes(nodes: Vec<Node>) -> Result<Process, NoMemory>
    requires few { vec_len nodes ≤ 100000 }
    requires small { All (λ n. HasSmallParts (shape_of n)) nodes.items }
    ensures { IfOk result (λ p. p.names ≡ 1) }
{
    match Process::from_nodes(1, nodes) {
        Some(process) => Ok(process),
        None => Err(AllocError),
    }
}

fn node(scope: u32, form: Form) -> Node
    ensures { result ≡ record { scope = scope; form = form } }
{
    Node { scope, form }
}

/// `stop`
pub fn stops(alloc: Global) -> Result<Process, NoMemory>
    ensures { IfOk result (λ p. p.names ≡ 1) }
{
    of_nodes(Vec::from_array(alloc, [node(1, Form::Stop)])?)
}

/// `new (x: Un); stop`
pub fn makes_a_name(alloc: Global) -> Result<Process, NoMemory>
    ensures { IfOk result (λ p. p.names ≡ 1) }
{
    let fresh = Form::Fresh {
        ty: Ty::Un,
        body: 1,
    };
    of_nodes(Vec::from_array(alloc, [node(1, fresh), node(2, Form::Stop)])?)
}

fn begin(body: u32) -> Form
    ensures { result ≡ Form.Begin (Msg.Name 0) body }
{
    Form::Begin {
        label: Msg::Name(0),
        body,
    }
}

/// `begin a; begin a; stop`
pub fn begins_twice(alloc: Global) -> Result<Process, NoMemory>
    ensures { IfOk result (λ p. p.names ≡ 1) }
{
    of_nodes(Vec::from_array(
        alloc,
        [node(1, begin(1)), node(1, begin(2)), node(1, Form::Stop)],
    )?)
}

fn out(datum: Msg) -> Form
    ensures { result ≡ Form.Send (Msg.Name 0) datum }
{
    Form::Send {
        channel: Msg::Name(0),
        datum,
    }
}

fn serve(body: u32) -> Form
    ensures { result ≡ Form.Serve (Msg.Name 0) Ty.Un body }
{
    Form::Serve {
        channel: Msg::Name(0),
        ty: Ty::Un,
        body,
    }
}

/// `repeat inp a (x: Un); out a x | out a a`
pub fn repeats(alloc: Global) -> Result<Process, NoMemory>
    ensures { IfOk result (λ p. p.names ≡ 1) }
{
    let both = Form::Par { first: 1, rest: 3 };
    of_nodes(Vec::from_array(
        alloc,
        [
            node(1, both),
            node(1, serve(2)),
            node(2, out(Msg::Name(1))),
            node(1, out(Msg::Name(0))),
        ],
    )?)
}

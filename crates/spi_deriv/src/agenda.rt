// What is to be done on the way through the nodes, and the types of the names in scope.

ghost use Rattle.std.specs.Prelude.{◌≡◌, List, [], ◌∷◌, ◌++◌, length, OnOk};
ghost use Rattle.spi_term.specs.Term as Term;
ghost use Rattle.spi_term.specs.View.{shape_of, ty as type_of};
ghost use Rattle.spi_deriv.specs.Agenda.{types_of, bound_types, top_types, next_types, IsAgendaSettled};

use crate::NoMemory;
use spi_term::{Form, Node, Ty};

/// The types of the names that a form binds in one of its processes, as they are written there.
#[derive(Clone, Copy)]
pub enum Binding<'a> {
    None,
    One(&'a Ty),
    Two(&'a Ty, &'a Ty),
}

fn width(binding: Binding) -> usize
    ensures { result ≡ length (bound_types binding.entry) }
{
    match binding {
        Binding::None => 0,
        Binding::One(_) => 1,
        Binding::Two(_, _) => 2,
    }
}

fn push_type<'a>(t: &'a Ty, types: &mut Vec<&'a Ty>) -> Result<(), NoMemory>
    ensures { OnOk result (types_of types.new.items ≡ types_of types.old.items ++ type_of t.now ∷ []) }
{
    types.push(t)?;
    Ok(())
}

// These names come into scope.
fn bind<'a>(binding: Binding<'a>, types: &mut Vec<&'a Ty>) -> Result<(), NoMemory>
    ensures { OnOk result (types_of types.new.items ≡ types_of types.old.items ++ bound_types binding.entry) }
{
    match binding {
        Binding::None => Ok(()),
        Binding::One(t) => push_type(t, types),
        Binding::Two(t, u) => {
            push_type(t, types)?;
            push_type(u, types)
        }
    }
}

/// The last process that is left is entered, by its scope: the names from outside it that aren't in scope there are
/// taken away, and those that it binds come into scope.
pub fn settle<'a>(
    scope: u32,
    pending: &mut Vec<Binding<'a>>,
    types: &mut Vec<&'a Ty>,
) -> Result<(), NoMemory>
    ensures { OnOk result
        ((b : List Term.Ty) (rest : List (List Term.Ty)) → top_types pending.old.items ≡ b ∷ rest
        → IsAgendaSettled scope b rest (types_of types.old.items) (types_of types.new.items)
        (top_types pending.new.items)) }
{
    match pending.pop() {
        None => Ok(()),
        Some(last) => {
            let outer = (scope as usize).saturating_sub(width(last));
            types.truncate(outer);
            bind(last, types)
        }
    }
}

fn push_binding<'a>(binding: Binding<'a>, pending: &mut Vec<Binding<'a>>) -> Result<(), NoMemory>
    ensures { OnOk result
        (top_types pending.new.items ≡ bound_types binding.entry ∷ top_types pending.old.items) }
{
    pending.push(binding)?;
    Ok(())
}

fn push_bindings<'a>(
    first: Binding<'a>,
    rest: Binding<'a>,
    pending: &mut Vec<Binding<'a>>,
) -> Result<(), NoMemory>
    ensures { OnOk result
        (top_types pending.new.items ≡ bound_types first.entry
        ∷ (bound_types rest.entry ∷ top_types pending.old.items)) }
{
    push_binding(rest, pending)?;
    push_binding(first, pending)
}

/// The processes in a form are to be done, the first of them first.
pub fn put_off<'a>(node: &'a Node, pending: &mut Vec<Binding<'a>>) -> Result<(), NoMemory>
    ensures { OnOk result
        (top_types pending.new.items ≡ next_types (shape_of node.now) ++ top_types pending.old.items) }
{
    match &node.form {
        Form::Send { .. } | Form::Stop => Ok(()),
        Form::Recv { ty, .. }
        | Form::Serve { ty, .. }
        | Form::Decrypt { ty, .. }
        | Form::Cast { ty, .. }
        | Form::Fresh { ty, .. } => push_binding(Binding::One(ty), pending),
        Form::Split { first, second, .. } => push_binding(Binding::Two(first, second), pending),
        Form::Select { second, .. } => push_binding(Binding::One(second), pending),
        Form::Branch { left, right, .. } => {
            push_bindings(Binding::One(left), Binding::One(right), pending)
        }
        Form::Check { .. } | Form::Begin { .. } | Form::End { .. } | Form::EndMany { .. } => {
            push_binding(Binding::None, pending)
        }
        Form::Par { .. } => push_bindings(Binding::None, Binding::None, pending),
    }
}

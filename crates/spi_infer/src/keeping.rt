// What the forward pass keeps of a form: what it adds to an effect or takes off, with the keys of the messages in it.
ghost use Rattle.std.specs.Prelude.{◌≤◌, IfOk, OnOk, None, length};
ghost use Rattle.spi_term.specs.Term as Term;
ghost use Rattle.spi_term.specs.Spelling.{HasSmallParts};
ghost use Rattle.spi_term.specs.View.{ty as type_of, shape_of};
ghost use Rattle.spi_message.specs.Asking.{IsEnvironment};
ghost use Rattle.spi_message.specs.Judging.{IsKept};
ghost use Rattle.spi_message.specs.Forms.{cast_effect_of};
ghost use Rattle.spi_infer.specs.Own.{FormFits};
ghost use Rattle.spi_count.specs.Keeping.{with_keys, AreKept, GrowsTo, HaveKeys};
ghost use Rattle.spi_infer.specs.Terms.{AreTermsOf};
ghost use Rattle.spi_infer.specs.Walking.{FitsIn, NotesIn};

use crate::asking::is_form_ok;
use crate::own::{Own, OwnNote};
use crate::terms::Terms;
use spi_count::{Keys, keep_atoms};
use spi_message::{Judge, NoMemory, nonce_at};
use spi_term::{Form, Msg, Node, Ty};
use std::alloc::Global;

// The keys of the messages in the effect of a cast are kept.
#[tactic(auto, using(spi_message::proofs::Tested::kept_same, spi_count::proofs::Kept::grows_same))]
fn keep_cast(judge: &mut Judge, keys: &mut Keys, t: &Ty) -> Result<(), NoMemory>
    requires { AreKept judge.old.store keys.old }
    ensures at { OnOk result (HaveKeys judge.new.store keys.new (cast_effect_of (type_of t.now))) }
    ensures grows { OnOk result (GrowsTo judge.old.store keys.old judge.new.store keys.new) }
    ensures kept { IsKept judge.old judge.new }
{
    match t {
        Ty::Nonce(e) => keep_atoms(judge, keys, e),
        _ => Ok(()),
    }
}

// What a new name takes off, by its number.
fn fresh_own(judge: &mut Judge, keys: &mut Keys, scope: u32) -> Result<Own, NoMemory>
    requires { AreKept judge.old.store keys.old }
    ensures fits { IfOk result
        (FormFits judge.new.store (with_keys judge.new.store keys.new) scope (Term.Freshes Term.un) None) }
    ensures grows { OnOk result (GrowsTo judge.old.store keys.old judge.new.store keys.new) }
    ensures kept { IsKept judge.old judge.new }
{
    let name = Msg::Name(scope);
    let id = judge.message(&name)?;
    Ok(Own::Made(id))
}

// What is kept of a form, by the numbers of its terms.
#[tactic(auto, using(spi_message::proofs::Tested::kept_same, spi_count::proofs::Kept::grows_same))]
fn own_of(judge: &mut Judge, keys: &mut Keys, node: &Node, terms: Terms) -> Result<Own, NoMemory>
    requires keys { AreKept judge.old.store keys.old }
    requires names { IsEnvironment judge.old.store judge.old.types }
    requires terms { AreTermsOf judge.old (shape_of node.now) terms }
    ensures fits { IfOk result (FitsIn judge.old judge.new keys.new (shape_of node.now)) }
    ensures grows { OnOk result (GrowsTo judge.old.store keys.old judge.new.store keys.new) }
    ensures kept { IsKept judge.old judge.new }
{
    match &node.form {
        Form::Check { whole, nonce, .. } => {
            let paid = nonce_at(judge, nonce);
            keys.keep(terms.message, whole)?;
            Ok(Own::Checked(terms.message, paid))
        }
        Form::Begin { .. } => Ok(Own::Label(terms.message)),
        Form::End { label, .. } => {
            keys.keep(terms.message, label)?;
            Ok(Own::Label(terms.message))
        }
        Form::EndMany { label, .. } => {
            keys.keep(terms.message, label)?;
            Ok(Own::Label(terms.message))
        }
        Form::Cast { ty, .. } => {
            keep_cast(judge, keys, ty)?;
            Ok(Own::Cast(terms.ty))
        }
        Form::Fresh { .. } => fresh_own(judge, keys, node.scope),
        _ => Ok(Own::Nothing),
    }
}

/// What is kept of a node, by the numbers of its terms.
#[tactic(auto, using(spi_message::proofs::Tested::kept_more))]
pub fn own_note(
    alloc: Global,
    judge: &mut Judge,
    keys: &mut Keys,
    node: &Node,
    terms: Terms,
) -> Result<OwnNote, NoMemory>
    requires small { HasSmallParts (shape_of node.now) }
    requires room { length judge.old.types ≤ 300001 }
    requires keys { AreKept judge.old.store keys.old }
    requires names { IsEnvironment judge.old.store judge.old.types }
    requires terms { AreTermsOf judge.old (shape_of node.now) terms }
    ensures note { IfOk result (NotesIn judge.old judge.new keys.new (shape_of node.now)) }
    ensures grows { OnOk result (GrowsTo judge.old.store keys.old judge.new.store keys.new) }
    ensures kept { IsKept judge.old judge.new }
{
    let fine = is_form_ok(alloc, judge, node, terms)?;
    let own = own_of(judge, keys, node, terms)?;
    Ok(OwnNote { fine, own })
}

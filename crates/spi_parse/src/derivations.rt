//! Derivations.

ghost use Rattle.std.specs.Prelude.{◌≡◌, ◌+◌, ◌≤◌, None, [], ◌∷◌, map, IfOk};
ghost use Rattle.spi_tree.specs.Trees.{derivs_of_list};
ghost use Rattle.spi_tree.specs.Trees as trees;
ghost use Rattle.spi_tree.specs.Views.{deriv_of, tree_effect};
ghost use Rattle.spi_parse.specs.Places.{state_of, GivesPart};
ghost use Rattle.spi_parse.specs.Ends.{done};
ghost use Rattle.spi_parse.specs.Wholes.{one_form, two_form, three_form, sub_form};
ghost use Rattle.spi_parse.specs.Rules.{arity_of, writes_effect, is_late};
ghost use Rattle.spi_parse.specs.Shapes.{is_sub, is_rule, by_arity, IsTreeShape};
ghost use Rattle.spi_parse.specs.Table.{deriv, word_at, over};
ghost use Rattle.spi_parse.specs.Reading.{read, limited};

use crate::cursor::{DERIVATION_LIMIT, Reader, accept, fits, placed_word, span_from, syntax};
use crate::effects::effect;
use crate::fault::Stop;
use crate::messages::Node;
use crate::seen::Seen;
use spi_rules::Rule;
use spi_text::Span;
use spi_tree::{Room, SDeriv, SEffect, SWord, placed, row};

/// A use of a rule, with the place behind it.
type Part<'b> = Result<SDeriv<'b>, Stop>;

/// What stands behind the word of a rule.
#[derive(Clone, Copy)]
pub enum Shape {
    /// The word is no rule's.
    NoRule,
    Leaf,
    One,
    Two,
    Three,
    /// An effect, and one premise.
    Sub,
}

/// Whether version 1 doesn't have the rule.
fn is_late(rule: Rule) -> bool
    ensures { result ≡ is_late rule }
{
    match rule {
        Rule::MsgHash => true,
        Rule::ProcEndMany => true,
        _ => false,
    }
}

/// Whether the rule writes its effect.
fn is_sub(rule: Rule) -> bool
    ensures { result ≡ is_sub rule }
{
    match rule {
        Rule::ProcSub => true,
        _ => false,
    }
}

fn by_arity(arity: u32, sub: bool) -> Shape
    ensures { result ≡ by_arity arity sub }
{
    if sub {
        return Shape::Sub;
    }
    if arity == 0 {
        return Shape::Leaf;
    }
    if arity == 1 {
        return Shape::One;
    }
    if arity == 2 {
        return Shape::Two;
    }
    Shape::Three
}

/// Whether the word is a rule's.
fn is_rule(shape: Shape) -> bool
    ensures { result ≡ is_rule shape }
{
    match shape {
        Shape::NoRule => false,
        _ => true,
    }
}

/// What stands behind this word, in a derivation of the version.
fn shape_of(later: bool, word: &str) -> Shape
    ensures { IsTreeShape result (arity_of later word.now) (writes_effect word.now) }
{
    match Rule::of_word(word) {
        Some(rule) => {
            if is_late(rule) & !later {
                return Shape::NoRule;
            }
            by_arity(rule.arity(), is_sub(rule))
        }
        None => Shape::NoRule,
    }
}

fn make_use<'b>(
    rule: SWord,
    effect: Option<&'b SEffect<'b>>,
    premises: Vec<SDeriv<'b>>,
    span: Span,
) -> SDeriv<'b>
    ensures { deriv_of result
        ≡ trees.rule span rule (tree_effect effect.entry)
        (derivs_of_list (map deriv_of premises.entry.items)) }
{
    SDeriv {
        rule,
        effect,
        premises,
        span,
    }
}

/// A use of a rule, of a nesting.
///
/// What reads a use holds the premises that it read in a vector, on the heap, while it reads the next, so that deep
/// derivations fit the stack.
#[cycle(derivations)]
#[inline(always)]
pub fn derivation<'b>(room: Room<'b>, at: &mut Reader<'_>, later: bool, nesting: u32) -> Part<'b>
    requires { nesting ≤ 1001 }
    ensures { GivesPart deriv_of result (state_of at.new)
        (read limited (deriv later nesting) (state_of at.old)) }
{
    let first = at.first()?;
    let Seen::Word(word) = first.kind else {
        return Err(syntax(at));
    };
    let shape = shape_of(later, word);
    accept(is_rule(shape), at)?;
    fits(nesting, DERIVATION_LIMIT, at)?;
    match shape {
        Shape::NoRule => Err(syntax(at)),
        Shape::Leaf => {
            at.advance();
            end_use(room, word, first.span, None, Vec::new(room.alloc), at)
        }
        Shape::One => {
            at.advance();
            read_one(room, word, first.span, at, later, nesting)
        }
        Shape::Two => {
            at.advance();
            read_two(room, word, first.span, at, later, nesting)
        }
        Shape::Three => {
            at.advance();
            read_three(room, word, first.span, at, later, nesting)
        }
        Shape::Sub => {
            at.advance();
            read_sub(room, word, first.span, at, later, nesting)
        }
    }
}

#[cycle(derivations)]
fn read_one<'b>(
    room: Room<'b>,
    word: &str,
    place: Span,
    at: &mut Reader<'_>,
    later: bool,
    nesting: u32,
) -> Part<'b>
    requires { nesting ≤ 1000 }
    ensures { GivesPart deriv_of result (state_of at.new)
        (one_form later nesting word.now (place ∷ []) (state_of at.old)) }
{
    let mut premises = Vec::with_capacity(room.alloc, 1)?;
    let first = derivation(room, at, later, nesting + 1)?;
    premises.push(first)?;
    end_use(room, word, place, None, premises, at)
}

#[cycle(derivations)]
fn read_two<'b>(
    room: Room<'b>,
    word: &str,
    place: Span,
    at: &mut Reader<'_>,
    later: bool,
    nesting: u32,
) -> Part<'b>
    requires { nesting ≤ 1000 }
    ensures { GivesPart deriv_of result (state_of at.new)
        (two_form later nesting word.now (place ∷ []) (state_of at.old)) }
{
    let mut premises = Vec::with_capacity(room.alloc, 2)?;
    let first = derivation(room, at, later, nesting + 1)?;
    premises.push(first)?;
    let second = derivation(room, at, later, nesting + 1)?;
    premises.push(second)?;
    end_use(room, word, place, None, premises, at)
}

#[cycle(derivations)]
fn read_three<'b>(
    room: Room<'b>,
    word: &str,
    place: Span,
    at: &mut Reader<'_>,
    later: bool,
    nesting: u32,
) -> Part<'b>
    requires { nesting ≤ 1000 }
    ensures { GivesPart deriv_of result (state_of at.new)
        (three_form later nesting word.now (place ∷ []) (state_of at.old)) }
{
    let mut premises = Vec::with_capacity(room.alloc, 3)?;
    let first = derivation(room, at, later, nesting + 1)?;
    premises.push(first)?;
    let second = derivation(room, at, later, nesting + 1)?;
    premises.push(second)?;
    let third = derivation(room, at, later, nesting + 1)?;
    premises.push(third)?;
    end_use(room, word, place, None, premises, at)
}

#[cycle(derivations)]
fn read_sub<'b>(
    room: Room<'b>,
    word: &str,
    place: Span,
    at: &mut Reader<'_>,
    later: bool,
    nesting: u32,
) -> Part<'b>
    requires { nesting ≤ 1000 }
    ensures { GivesPart deriv_of result (state_of at.new)
        (sub_form later nesting word.now (place ∷ []) (state_of at.old)) }
{
    let atoms = Node {
        later,
        numbered: true,
        nesting: 0,
    };
    let effect = effect(room, at, atoms)?;
    let atoms = row(room, effect)?;
    let effect = placed(room, SEffect { atoms })?;
    let mut premises = Vec::with_capacity(room.alloc, 1)?;
    let first = derivation(room, at, later, nesting + 1)?;
    premises.push(first)?;
    end_use(room, word, place, Some(effect), premises, at)
}

/// The use of a rule with these premises, which ends before this place.
#[inline(always)]
fn end_use<'b>(
    room: Room<'b>,
    word: &str,
    place: Span,
    effect: Option<&'b SEffect<'b>>,
    premises: Vec<SDeriv<'b>>,
    at: &mut Reader<'_>,
) -> Part<'b>
    ensures { GivesPart deriv_of result (state_of at.new)
        (done (trees.rule (over (place ∷ []) (state_of at.old).end) (word_at word.now place)
        (tree_effect effect.entry) (derivs_of_list (map deriv_of premises.entry.items))) (state_of at.old)) }
{
    let rule = placed_word(room.alloc, word, place)?;
    let span = span_from(place, at);
    Ok(make_use(rule, effect, premises, span))
}

// Places, followed beside a pool.

use crate::NoMemory;
use crate::course::Taken;
use spi_run::Step;
use spi_term::{Form, Msg, Node, Process};
use std::alloc::Global;

/// Whose process a place runs.
#[derive(Clone, Copy, PartialEq, Eq)]
pub enum Side {
    Process,
    Opponent,
}

/// Where a place stands: at a node of the process or of the opponent, below so many links, of which the last bound name
/// has the number `last`. The number 0 is none. A place that is done holds `stop`.
#[derive(Clone, Copy)]
pub struct Standing {
    pub side: Side,
    pub node: u32,
    pub last: usize,
    pub done: bool,
}

/// The message of a bound name, and the number of the link of the name that was bound before it.
#[derive(Drop)]
pub struct Link {
    pub value: Msg,
    pub before: usize,
}

/// The places of a pool, by the nodes that they stand at.
#[derive(Drop)]
pub struct Follower<'f> {
    pub alloc: Global,
    pub process: &'f Process,
    pub opponent: &'f Process,
    pub links: Vec<Link>,
    pub places: Vec<Standing>,
}

// The message in a box, where there is one.
fn boxed(alloc: Global, m: Result<Msg, NoMemory>) -> Result<Box<Msg>, NoMemory> {
    Ok(Box::new(alloc, m?)?)
}

fn first(side: Side) -> Standing {
    Standing {
        side,
        node: 0,
        last: 0,
        done: false,
    }
}

impl<'f> Follower<'f> {
    /// The process at place 0, and the opponent at place 1.
    pub fn start(
        alloc: Global,
        process: &'f Process,
        opponent: &'f Process,
    ) -> Result<Follower<'f>, NoMemory> {
        let mut places = Vec::new(alloc);
        places.push(first(Side::Process))?;
        places.push(first(Side::Opponent))?;
        Ok(Follower {
            alloc,
            process,
            opponent,
            links: Vec::new(alloc),
            places,
        })
    }

    /// Where a place stands, where it is there and isn't done.
    pub fn standing(&self, place: u32) -> Option<Standing> {
        match self.places.get(place as usize) {
            Some(at) if !at.done => Some(*at),
            _ => None,
        }
    }

    /// The node that a place stands at.
    pub fn node(&self, at: Standing) -> Option<&'f Node> {
        let source = match at.side {
            Side::Process => self.process,
            Side::Opponent => self.opponent,
        };
        if at.node < source.len() {
            Some(source.node(at.node))
        } else {
            None
        }
    }

    // The message of the name that was bound `steps` names before the last one.
    fn value(&self, last: usize, steps: u32) -> Result<Msg, NoMemory> {
        let mut at = last;
        for _ in 0..steps {
            at = match self.links.get(at.saturating_sub(1)) {
                Some(link) => link.before,
                None => 0,
            };
        }
        match self.links.get(at.saturating_sub(1)) {
            Some(link) => link.value.copy(self.alloc),
            None => Ok(Msg::Unit),
        }
    }

    // A name at a node with so many names in scope.
    fn named(&self, last: usize, scope: u32, x: u32) -> Result<Msg, NoMemory> {
        if x < self.process.names() {
            Ok(Msg::Name(x))
        } else {
            self.value(last, scope.saturating_sub(x).saturating_sub(1))
        }
    }

    /// A message of a node, with the messages of the names in it.
    pub fn instance(&self, last: usize, scope: u32, m: &Msg) -> Result<Msg, NoMemory> {
        match m {
            Msg::Bound(i) => Ok(Msg::Bound(*i)),
            Msg::Name(x) => self.named(last, scope, *x),
            Msg::Unit => Ok(Msg::Unit),
            Msg::Pair(two) => {
                let first = self.instance(last, scope, &two.first)?;
                let second = self.instance(last, scope, &two.second)?;
                Msg::paired(self.alloc, first, second)
            }
            Msg::Inl(a) => Ok(Msg::Inl(boxed(self.alloc, self.instance(last, scope, a))?)),
            Msg::Inr(a) => Ok(Msg::Inr(boxed(self.alloc, self.instance(last, scope, a))?)),
            Msg::Enc(sealed) => {
                let body = self.instance(last, scope, &sealed.body)?;
                let key = self.instance(last, scope, &sealed.key)?;
                Msg::sealed(self.alloc, body, key)
            }
            Msg::Hash(a) => Ok(Msg::Hash(boxed(self.alloc, self.instance(last, scope, a))?)),
        }
    }

    // A place below one more name, which is bound to a message.
    fn below(&mut self, at: Standing, value: &Msg) -> Result<Standing, NoMemory> {
        let value = value.copy(self.alloc)?;
        self.links.push(Link {
            value,
            before: at.last,
        })?;
        Ok(Standing {
            last: self.links.len(),
            ..at
        })
    }

    // A place that goes on with both parts of a pair, with the second or with neither.
    fn split(&mut self, at: Standing, whole: &Msg) -> Result<Standing, NoMemory> {
        match whole {
            Msg::Pair(two) => {
                let once = self.below(at, &two.first)?;
                self.below(once, &two.second)
            }
            _ => Ok(at),
        }
    }

    // A place that goes on with what is in a message.
    fn opened(&mut self, at: Standing, whole: &Msg) -> Result<Standing, NoMemory> {
        match whole {
            Msg::Pair(two) => self.below(at, &two.second),
            Msg::Inl(part) => self.below(at, part),
            Msg::Inr(part) => self.below(at, part),
            Msg::Enc(sealed) => self.below(at, &sealed.body),
            _ => Ok(at),
        }
    }

    // A place after an act that binds names.
    fn bound(
        &mut self,
        at: Standing,
        node: &Node,
        made: Option<u32>,
    ) -> Result<Standing, NoMemory> {
        match &node.form {
            Form::Split { whole, .. } => {
                let whole = self.instance(at.last, node.scope, whole)?;
                self.split(at, &whole)
            }
            Form::Select { whole, .. } => self.opened_at(at, node.scope, whole),
            Form::Branch { whole, .. } => self.opened_at(at, node.scope, whole),
            Form::Decrypt { whole, .. } => self.opened_at(at, node.scope, whole),
            Form::Cast { whole, .. } => {
                let whole = self.instance(at.last, node.scope, whole)?;
                self.below(at, &whole)
            }
            Form::Fresh { .. } => match made {
                Some(number) => self.below(at, &Msg::Name(number)),
                None => Ok(at),
            },
            _ => Ok(at),
        }
    }

    fn opened_at(&mut self, at: Standing, scope: u32, whole: &Msg) -> Result<Standing, NoMemory> {
        let whole = self.instance(at.last, scope, whole)?;
        self.opened(at, &whole)
    }

    // Whether a `case` goes on on its left.
    fn is_left(&self, at: Standing, scope: u32, whole: &Msg) -> Result<bool, NoMemory> {
        let whole = self.instance(at.last, scope, whole)?;
        Ok(matches!(&whole, Msg::Inl(_)))
    }

    // The node at which a place goes on after an act.
    fn next(&self, at: Standing, node: &Node) -> Result<u32, NoMemory> {
        match &node.form {
            Form::Branch {
                whole,
                on_left,
                on_right,
                ..
            } => Ok(if self.is_left(at, node.scope, whole)? {
                *on_left
            } else {
                *on_right
            }),
            form => Ok(body_of(form)),
        }
    }

    // A place goes on so.
    fn go(&mut self, place: u32, now: Standing) {
        if let Some(at) = self.places.get_mut(place as usize) {
            *at = now;
        }
    }

    fn act(&mut self, place: u32, made: Option<u32>) -> Result<(), NoMemory> {
        let Some(at) = self.standing(place) else {
            return Ok(());
        };
        let Some(node) = self.node(at) else {
            return Ok(());
        };
        if let Form::Par { rest, .. } = &node.form {
            self.places.push(Standing { node: *rest, ..at })?;
        }
        let next = self.next(at, node)?;
        let now = self.bound(at, node, made)?;
        self.go(place, Standing { node: next, ..now });
        Ok(())
    }

    fn talk(&mut self, out: u32, inp: u32, datum: &Msg) -> Result<(), NoMemory> {
        let Some(at) = self.standing(inp) else {
            return Ok(());
        };
        let Some(node) = self.node(at) else {
            return Ok(());
        };
        let now = self.below(at, datum)?;
        let next = Standing {
            node: body_of(&node.form),
            ..now
        };
        match &node.form {
            Form::Serve { .. } => self.places.push(next)?,
            _ => self.go(inp, next),
        }
        if let Some(sender) = self.places.get_mut(out as usize) {
            sender.done = true;
        }
        Ok(())
    }

    /// The places after a step that was taken.
    pub fn follow(&mut self, taken: &Taken) -> Result<(), NoMemory> {
        match taken.step {
            Step::Act(place) => self.act(place, taken.made),
            Step::Talk(out, inp) => match &taken.datum {
                Some(datum) => self.talk(out, inp, datum),
                None => Ok(()),
            },
        }
    }
}

// The first node that follows a form.
fn body_of(form: &Form) -> u32 {
    match form {
        Form::Send { .. } => 0,
        Form::Recv { body, .. } => *body,
        Form::Serve { body, .. } => *body,
        Form::Split { body, .. } => *body,
        Form::Select { body, .. } => *body,
        Form::Branch { on_left, .. } => *on_left,
        Form::Decrypt { body, .. } => *body,
        Form::Check { body, .. } => *body,
        Form::Begin { body, .. } => *body,
        Form::End { body, .. } => *body,
        Form::EndMany { body, .. } => *body,
        Form::Cast { body, .. } => *body,
        Form::Fresh { body, .. } => *body,
        Form::Par { first, .. } => *first,
        Form::Stop => 0,
    }
}

// The lines of the steps that were taken.

use crate::NoMemory;
use crate::course::{Course, Taken};
use crate::follow::Standing;
use crate::roles::is_sequence;
use crate::scene::Scene;
use spi_run::{Event, Step};
use spi_term::{Form, Msg};

/// Appends the word of an event and its label.
pub fn put_event(scene: &mut Scene<'_>, event: &Event) -> Result<(), NoMemory> {
    match event {
        Event::Begin(label) => put_word(scene, "begin ", label),
        Event::End(label) => put_word(scene, "end ", label),
        Event::EndMany(label) => put_word(scene, "endmany ", label),
    }
}

fn put_word(scene: &mut Scene<'_>, word: &str, m: &Msg) -> Result<(), NoMemory> {
    scene.put(word)?;
    scene.put_message(m)
}

/// Appends the new name of a step, where it made one.
pub fn put_made(scene: &mut Scene<'_>, made: Option<u32>) -> Result<(), NoMemory> {
    scene.put("new ")?;
    match made {
        Some(x) => scene.put_name(x),
        None => Ok(()),
    }
}

// Appends which part of a composition stays, and where the other goes.
fn put_parts(
    scene: &mut Scene<'_>,
    at: Standing,
    first: u32,
    added: Option<u32>,
) -> Result<(), NoMemory> {
    if is_sequence(scene.file, at.side, at.node, first) {
        scene.put("the output stays, and what follows goes to place ")?;
    } else {
        scene.put("P | Q: P stays, and Q goes to place ")?;
    }
    scene.put_number(added.unwrap_or(0) as u64)
}

/// The word of a form that looks at a message, and that message.
pub fn looked_at(form: &Form) -> Option<(&'static str, &Msg)> {
    match form {
        Form::Split { whole, .. } => Some(("split ", whole)),
        Form::Select { whole, .. } => Some(("match ", whole)),
        Form::Branch { whole, .. } => Some(("case ", whole)),
        Form::Decrypt { whole, .. } => Some(("decrypt ", whole)),
        Form::Check { whole, .. } => Some(("check ", whole)),
        Form::Cast { whole, .. } => Some(("cast ", whole)),
        _ => None,
    }
}

// Appends what a place did that acted alone without an event.
fn put_act(
    scene: &mut Scene<'_>,
    at: Standing,
    form: &Form,
    taken: &Taken,
) -> Result<(), NoMemory> {
    if let Some((word, whole)) = looked_at(form) {
        return scene.put_part(word, at, whole);
    }
    match form {
        Form::Par { first, .. } => put_parts(scene, at, *first, taken.added),
        _ => put_made(scene, taken.made),
    }
}

// Appends whether an event that ends is paid, by the step that begins.
fn put_paid(scene: &mut Scene<'_>, event: &Event, begin: Option<usize>) -> Result<(), NoMemory> {
    if matches!(event, Event::Begin(_)) {
        return Ok(());
    }
    match begin {
        Some(step) => {
            scene.put(", paid by step ")?;
            scene.put_number(step as u64)
        }
        None => scene.put(", unpaid"),
    }
}

// Appends what the act of a place did.
fn put_alone(
    scene: &mut Scene<'_>,
    place: u32,
    taken: &Taken,
    event: Option<&Event>,
    begin: Option<usize>,
) -> Result<(), NoMemory> {
    scene.put_step(taken.step)?;
    let Some((at, form)) = scene.held(place) else {
        return Ok(());
    };
    scene.put(" at ")?;
    scene.put_at(at)?;
    scene.put(": ")?;
    match event {
        Some(event) => {
            put_event(scene, event)?;
            put_paid(scene, event, begin)
        }
        None => put_act(scene, at, form, taken),
    }
}

/// Appends the channel that a place puts out on.
pub fn put_channel(scene: &mut Scene<'_>, place: u32) -> Result<(), NoMemory> {
    match scene.held(place) {
        Some((at, Form::Send { channel, .. })) => scene.put_said(at, channel),
        _ => Ok(()),
    }
}

// Appends where the node of a place stands.
fn put_where(scene: &mut Scene<'_>, word: &str, place: u32) -> Result<(), NoMemory> {
    match scene.held(place) {
        Some((at, _)) => {
            scene.put(word)?;
            scene.put_at(at)
        }
        None => Ok(()),
    }
}

/// Appends the message that a step handed over, where it did.
pub fn put_datum(scene: &mut Scene<'_>, taken: &Taken) -> Result<(), NoMemory> {
    match &taken.datum {
        Some(datum) => scene.put_message(datum),
        None => Ok(()),
    }
}

// Appends what two places handed over.
fn put_talk(scene: &mut Scene<'_>, from: u32, to: u32, taken: &Taken) -> Result<(), NoMemory> {
    scene.put_step(taken.step)?;
    put_where(scene, " from ", from)?;
    put_where(scene, " to ", to)?;
    scene.put(": ")?;
    put_channel(scene, from)?;
    scene.put(" <- ")?;
    put_datum(scene, taken)?;
    match taken.added {
        Some(place) => {
            scene.put(", the copy goes to place ")?;
            scene.put_number(place as u64)
        }
        None => Ok(()),
    }
}

/// The event of a step, where it has one.
pub fn event_of<'c>(course: &'c Course, taken: &Taken) -> Option<&'c Event> {
    course.events.get(taken.event?)
}

/// Appends the line of a step, by its number from 1 on. The begin that pays for its event is that of this step.
pub fn put_step(
    scene: &mut Scene<'_>,
    number: usize,
    taken: &Taken,
    event: Option<&Event>,
    begin: Option<usize>,
) -> Result<(), NoMemory> {
    scene.put_number(number as u64)?;
    scene.put(". ")?;
    match taken.step {
        Step::Act(place) => put_alone(scene, place, taken, event, begin)?,
        Step::Talk(from, to) => put_talk(scene, from, to, taken)?,
    }
    scene.put("\n")
}

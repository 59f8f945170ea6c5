// The sequence chart of a course, as Mermaid reads it.

use crate::NoMemory;
use crate::course::{Course, Taken};
use crate::deeds::{event_of, put_channel, put_datum, put_event, put_made};
use crate::roles::{Role, Roles};
use crate::scene::Scene;
use crate::waiting::refusal_name;
use spi_replay::StepFault;
use spi_run::{Event, Step};

// Appends the name of a role in the chart.
fn put_role(scene: &mut Scene<'_>, role: Role) -> Result<(), NoMemory> {
    match role {
        Role::Opponent => scene.put("O"),
        Role::All => scene.put("P0"),
        Role::Part(number) => {
            scene.put("P")?;
            scene.put_number(number as u64)
        }
    }
}

// Whose a place is, and all where it is done.
fn role_of(scene: &Scene<'_>, roles: &Roles, place: u32) -> Role {
    match scene.follower.standing(place) {
        Some(at) => roles.role(at),
        None => Role::All,
    }
}

// Appends the line of each role: the top parts with their places in the file, and the opponent.
fn put_roles(scene: &mut Scene<'_>, roles: &Roles) -> Result<(), NoMemory> {
    scene.put("sequenceDiagram\n")?;
    for (number, start) in roles.starts.iter().enumerate() {
        scene.put("    participant ")?;
        put_role(scene, Role::Part(number))?;
        scene.put(" as ")?;
        put_role(scene, Role::Part(number))?;
        scene.put(" (")?;
        let offset = scene.file.process_place(*start).from;
        scene.put_offset(offset)?;
        scene.put(")\n")?;
    }
    scene.put("    participant O as opponent\n")
}

// Appends the start of a note.
fn put_note(scene: &mut Scene<'_>, roles: &Roles, place: u32) -> Result<(), NoMemory> {
    scene.put("    Note over ")?;
    let role = role_of(scene, roles, place);
    put_role(scene, role)?;
    if role == Role::All && roles.starts.len() > 1 {
        scene.put(",")?;
        put_role(scene, Role::Part(roles.starts.len().saturating_sub(1)))?;
    }
    scene.put(": ")
}

// Appends the note of an act that shows an event or makes a name.
fn put_act(
    scene: &mut Scene<'_>,
    roles: &Roles,
    place: u32,
    taken: &Taken,
    event: Option<&Event>,
    unpaid: bool,
) -> Result<(), NoMemory> {
    match event {
        Some(event) => {
            put_note(scene, roles, place)?;
            put_event(scene, event)?;
            scene.put(if unpaid { ", unpaid\n" } else { "\n" })
        }
        None if taken.made.is_some() => {
            put_note(scene, roles, place)?;
            put_made(scene, taken.made)?;
            scene.put("\n")
        }
        None => Ok(()),
    }
}

// Appends the arrow of a talk.
fn put_talk(
    scene: &mut Scene<'_>,
    roles: &Roles,
    from: u32,
    to: u32,
    taken: &Taken,
) -> Result<(), NoMemory> {
    scene.put("    ")?;
    let sender = role_of(scene, roles, from);
    put_role(scene, sender)?;
    scene.put("->>")?;
    let receiver = role_of(scene, roles, to);
    put_role(scene, receiver)?;
    scene.put(": ")?;
    put_channel(scene, from)?;
    scene.put(": ")?;
    put_datum(scene, taken)?;
    scene.put("\n")
}

fn put_taken(
    scene: &mut Scene<'_>,
    roles: &Roles,
    taken: &Taken,
    event: Option<&Event>,
    unpaid: bool,
) -> Result<(), NoMemory> {
    match taken.step {
        Step::Act(place) => put_act(scene, roles, place, taken, event, unpaid),
        Step::Talk(from, to) => put_talk(scene, roles, from, to, taken),
    }
}

// Whether the event of a step ends, and no begin pays for it.
fn is_unpaid(taken: &Taken, event: Option<&Event>, begins: &[Option<usize>]) -> bool {
    match event {
        None => false,
        Some(Event::Begin(_)) => false,
        Some(_) => match taken.event {
            Some(number) => matches!(begins.get(number), Some(None)),
            None => false,
        },
    }
}

// Appends the note of a step that is refused.
fn put_refused(
    scene: &mut Scene<'_>,
    roles: &Roles,
    step: Step,
    fault: &StepFault,
) -> Result<(), NoMemory> {
    let place = match step {
        Step::Act(place) => place,
        Step::Talk(from, _) => from,
    };
    put_note(scene, roles, place)?;
    scene.put_step(step)?;
    scene.put(" is refused: ")?;
    scene.put(refusal_name(fault))?;
    scene.put("\n")
}

/// Appends the chart of a course of these steps: a line for each role, an arrow for each talk, and a note for each name
/// that is made and each event.
pub fn put_chart(
    scene: &mut Scene<'_>,
    course: &Course,
    steps: &[Step],
    begins: &[Option<usize>],
) -> Result<(), NoMemory> {
    let roles = Roles::of(scene.alloc, scene.file)?;
    put_roles(scene, &roles)?;
    for taken in &course.taken {
        scene.note(taken)?;
        let event = event_of(course, taken);
        let unpaid = is_unpaid(taken, event, begins);
        put_taken(scene, &roles, taken, event, unpaid)?;
        scene.follower.follow(taken)?;
    }
    match (&course.refused, steps.get(course.taken.len())) {
        (Some(fault), Some(step)) => put_refused(scene, &roles, *step, fault),
        _ => Ok(()),
    }
}

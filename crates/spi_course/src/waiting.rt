// What places wait for.

use crate::NoMemory;
use crate::deeds::looked_at;
use crate::follow::Standing;
use crate::scene::Scene;
use spi_replay::{Pool, StepFault};
use spi_run::Step;
use spi_term::{Form, Msg, same_message};

// Why a form that acts alone doesn't, or nothing where it does.
fn hindered(scene: &Scene<'_>, at: Standing, form: &Form) -> Result<&'static str, NoMemory> {
    match form {
        Form::Split { whole, .. } => Ok(no_pair(&scene.instance(at, whole)?)),
        Form::Select { whole, equal, .. } => {
            let wanted = scene.instance(at, equal)?;
            Ok(other_first(&scene.instance(at, whole)?, &wanted))
        }
        Form::Branch { whole, .. } => Ok(no_side(&scene.instance(at, whole)?)),
        Form::Decrypt { whole, key, .. } => {
            let wanted = scene.instance(at, key)?;
            Ok(other_key(&scene.instance(at, whole)?, &wanted))
        }
        Form::Check { whole, nonce, .. } => {
            let wanted = scene.instance(at, nonce)?;
            Ok(unless_same(&scene.instance(at, whole)?, &wanted, "; it is another"))
        }
        _ => Ok(""),
    }
}

fn no_pair(whole: &Msg) -> &'static str {
    match whole {
        Msg::Pair(_) => "",
        _ => "; it is no pair",
    }
}

// Nothing where the message is the wanted one, else that it is another.
fn unless_same(found: &Msg, wanted: &Msg, another: &'static str) -> &'static str {
    if same_message(found, wanted) {
        ""
    } else {
        another
    }
}

fn other_first(whole: &Msg, wanted: &Msg) -> &'static str {
    match whole {
        Msg::Pair(two) => unless_same(&two.first, wanted, "; its first part is another"),
        _ => "; it is no pair",
    }
}

fn no_side(whole: &Msg) -> &'static str {
    match whole {
        Msg::Inl(_) => "",
        Msg::Inr(_) => "",
        _ => "; it is neither inl nor inr",
    }
}

fn other_key(whole: &Msg, wanted: &Msg) -> &'static str {
    match whole {
        Msg::Enc(sealed) => unless_same(&sealed.key, wanted, "; its key is another"),
        _ => "; it is no ciphertext",
    }
}

// Appends what a form asks of the message that it looks at.
fn put_wanted(scene: &mut Scene<'_>, at: Standing, form: &Form) -> Result<(), NoMemory> {
    match form {
        Form::Select { equal, .. } => scene.put_part(" wants the first part ", at, equal),
        Form::Decrypt { key, .. } => scene.put_part(" wants the key ", at, key),
        Form::Check { nonce, .. } => scene.put_part(" wants ", at, nonce),
        _ => Ok(()),
    }
}

// Appends a form that acts alone, with what it asks.
fn put_asked(scene: &mut Scene<'_>, at: Standing, form: &Form) -> Result<(), NoMemory> {
    if let Some((word, whole)) = looked_at(form) {
        scene.put_part(word, at, whole)?;
        return put_wanted(scene, at, form);
    }
    match form {
        Form::Begin { label, .. } => scene.put_part("begin ", at, label),
        Form::End { label, .. } => scene.put_part("end ", at, label),
        Form::EndMany { label, .. } => scene.put_part("endmany ", at, label),
        Form::Fresh { .. } => scene.put("new"),
        _ => scene.put("P | Q"),
    }
}

// Appends what a form that acts alone would do, and whether it can.
fn put_alone(scene: &mut Scene<'_>, at: Standing, form: &Form) -> Result<(), NoMemory> {
    let why = hindered(scene, at, form)?;
    scene.put(if why.is_empty() {
        "can go on: "
    } else {
        "is stuck: "
    })?;
    put_asked(scene, at, form)?;
    scene.put(why)
}

// Appends what a form waits for.
fn put_form(scene: &mut Scene<'_>, at: Standing, form: &Form) -> Result<(), NoMemory> {
    scene.put(" at ")?;
    scene.put_at(at)?;
    scene.put(" ")?;
    match form {
        Form::Send { channel, datum } => {
            scene.put_part("puts out on ", at, channel)?;
            scene.put_part(": ", at, datum)
        }
        Form::Recv { channel, .. } => scene.put_part("waits for a message on ", at, channel),
        Form::Serve { channel, .. } => {
            scene.put_part("waits for a message on ", at, channel)?;
            scene.put(", again and again")
        }
        Form::Stop => scene.put("is done"),
        form => put_alone(scene, at, form),
    }
}

/// Appends the line of what a place waits for.
pub fn put_waiting(scene: &mut Scene<'_>, place: u32) -> Result<(), NoMemory> {
    scene.put("   place ")?;
    scene.put_number(place as u64)?;
    match scene.held(place) {
        Some((at, form)) => put_form(scene, at, form)?,
        None => scene.put(" is done")?,
    }
    scene.put("\n")
}

/// Whether nothing is left to do at a place.
pub fn is_done(scene: &Scene<'_>, place: u32) -> bool {
    match scene.held(place) {
        Some((_, Form::Stop)) => true,
        Some((_, _)) => false,
        None => true,
    }
}

// Adds the talks of an output with these inputs.
fn add_inputs(ready: &mut Vec<Step>, from: u32, inputs: &[u32]) -> Result<(), NoMemory> {
    for to in inputs {
        ready.push(Step::Talk(from, *to))?;
    }
    Ok(())
}

// Adds the talks of an input with these outputs.
fn add_outputs(ready: &mut Vec<Step>, to: u32, outputs: &[u32]) -> Result<(), NoMemory> {
    for from in outputs {
        ready.push(Step::Talk(*from, to))?;
    }
    Ok(())
}

// The steps that are ready with a place. A place that acts alone is ready where nothing hinders it.
fn ready_with(scene: &Scene<'_>, pool: &Pool<'_>, place: u32) -> Result<Vec<Step>, NoMemory> {
    let mut ready = Vec::new(scene.alloc);
    match scene.held(place) {
        Some((at, Form::Send { channel, .. })) => {
            let channel = scene.instance(at, channel)?;
            add_inputs(&mut ready, place, pool.ins_on(&channel))?;
        }
        Some((at, Form::Recv { channel, .. })) => {
            let channel = scene.instance(at, channel)?;
            add_outputs(&mut ready, place, pool.outs_on(&channel))?;
        }
        Some((at, Form::Serve { channel, .. })) => {
            let channel = scene.instance(at, channel)?;
            add_outputs(&mut ready, place, pool.outs_on(&channel))?;
        }
        Some((_, Form::Stop)) => {}
        Some((at, form)) => {
            if hindered(scene, at, form)?.is_empty() {
                ready.push(Step::Act(place))?;
            }
        }
        None => {}
    }
    Ok(ready)
}

// Appends the steps that are ready with a place.
fn put_ready(scene: &mut Scene<'_>, ready: &[Step]) -> Result<(), NoMemory> {
    if ready.is_empty() {
        return scene.put("      no step with it is ready\n");
    }
    scene.put("      ready with it:")?;
    for step in ready {
        scene.put(" ")?;
        scene.put_step(*step)?;
    }
    scene.put("\n")
}

// Appends what a place waits for, and the steps that are ready with it.
fn put_place(scene: &mut Scene<'_>, pool: &Pool<'_>, place: u32) -> Result<(), NoMemory> {
    put_waiting(scene, place)?;
    let ready = ready_with(scene, pool, place)?;
    put_ready(scene, &ready)
}

/// The number and the name of a refusal.
pub fn refusal_name(fault: &StepFault) -> &'static str {
    match fault {
        StepFault::NoPlace { .. } => "60 NoPlace",
        StepFault::NotReady { .. } => "61 NotReady",
        StepFault::RunMessageTooLarge { .. } => "62 RunMessageTooLarge",
        StepFault::TooManyPlaces { .. } => "63 TooManyPlaces",
        StepFault::NoMemory => "no memory",
    }
}

/// Appends why a step is refused, and what would be ready.
pub fn put_refusal(
    scene: &mut Scene<'_>,
    pool: &Pool<'_>,
    step: Step,
    fault: &StepFault,
) -> Result<(), NoMemory> {
    match fault {
        StepFault::NoPlace { place } => {
            scene.put("   there is no place ")?;
            scene.put_number(*place as u64)?;
            scene.put(": the last one is ")?;
            scene.put_number(pool.places().saturating_sub(1) as u64)?;
            scene.put("\n")
        }
        StepFault::RunMessageTooLarge { nodes } => {
            scene.put("   it binds or shows a message of ")?;
            scene.put_number(*nodes)?;
            scene.put(" nodes, of which 1000 are allowed\n")
        }
        StepFault::TooManyPlaces { places } => {
            scene.put("   there would be ")?;
            scene.put_number(*places as u64)?;
            scene.put(" places, of which 5000 are allowed\n")
        }
        _ => match step {
            Step::Act(place) => put_place(scene, pool, place),
            Step::Talk(from, to) => {
                put_place(scene, pool, from)?;
                put_place(scene, pool, to)
            }
        },
    }
}

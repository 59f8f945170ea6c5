// What the tests stand on: texts and the files that they spell, questions to them with tables of answers, runs of commands
// over streams in memory, and the one assertion.

use spi_commands::{Afterwards, Player, read, run};
use spi_io::{MemorySink, MemorySource};
use spi_scope::File;
use spi_term::{Form, Msg, Process, Ty};
use std::alloc::{AllocError, Global};
use std::process::Abort;

/// Memory ran out.
pub type NoMemory = AllocError;

/// The answer where a file isn't of the form that is asked for.
pub const MISSING: u64 = 999;

/// Fails where this doesn't hold, and says what it is.
pub fn shows(rt: &impl Abort, what: &str, holds: Result<bool, NoMemory>) {
    assert!(rt; matches!(holds, Ok(true)), "{what}");
}

/// A begin that pays for nothing.
pub const BEGINS: &str = "free a; process begin a; stop";

/// An end that nothing pays for.
pub const UNPAID: &str = "free a; process end a; stop";

/// A ciphertext under the key that is the first name.
pub const SEALED: &str = "free a; process new (x: Key(Un)); new (y: Un); out a {a}x";

/// The key itself.
pub const BARE: &str = "free a; process new (x: Key(Un)); new (y: Un); out a x";

/// A check of the key, which isn't untrusted.
pub const CHECKED: &str = "free a; process new (x: Key(Un)); new (y: Nonce [check x]); out a a";

/// Two Nonce types with the same ends in another order.
pub const TURNED: &str =
    "free a, b; process new (x: Nonce [end a, end b]); new (y: Nonce [end b, end a]); out a a";

/// A pair type whose second part speaks of its binder, and that part with the channel for the binder.
pub const OPENED_RIGHT: &str =
    "free a; process new (x: (p: Un, Nonce [end p])); new (y: Nonce [end a]); out a a";

/// The same with another message than the channel.
pub const OPENED_WRONG: &str =
    "free a; process new (x: (p: Un, Nonce [end p])); new (y: Nonce [end ()]); out a a";

/// The file that a text spells.
pub fn file_of(alloc: Global, text: &str) -> Option<File> {
    let bytes = text.as_bytes();
    if bytes.len() > 16_777_216 {
        return None;
    }
    match read(alloc, Afterwards::GoesOn, bytes) {
        Ok(file) => Some(file),
        Err(_) => None,
    }
}

/// A question to a text, with a number for an answer: 1 for yes, 0 for no, and none to a text that can't be asked.
pub trait TextQuestion: Copy {
    fn answer_to_text(self, alloc: Global, text: &str) -> Result<Option<u64>, NoMemory>;
}

/// A question to the file that a text spells.
pub trait Question: Copy {
    fn answer(self, alloc: Global, file: &File) -> Result<u64, NoMemory>;
}

impl<Q: Question> TextQuestion for Q {
    fn answer_to_text(self, alloc: Global, text: &str) -> Result<Option<u64>, NoMemory> {
        match &file_of(alloc, text) {
            Some(file) => Ok(Some(self.answer(alloc, file)?)),
            None => Ok(None),
        }
    }
}

fn is_answered<Q: TextQuestion>(
    alloc: Global,
    question: Q,
    text: &str,
    wanted: u64,
) -> Result<bool, NoMemory> {
    Ok(question.answer_to_text(alloc, text)? == Some(wanted))
}

/// The question has these answers, each to its text.
pub fn each<Q: TextQuestion>(
    rt: &(impl Abort + AllocGlobal),
    question: Q,
    answers: &[(&str, u64)],
) {
    for (text, wanted) in answers {
        shows(rt, text, is_answered(rt.alloc(), question, text, *wanted));
    }
}

/// A question to a file and its text, with a text for an answer.
pub trait Line: Copy {
    fn line(self, alloc: Global, text: &str, file: &File) -> Result<Vec<u8>, NoMemory>;
}

fn is_written<L: Line>(alloc: Global, line: L, text: &str, wanted: &str) -> Result<bool, NoMemory> {
    match &file_of(alloc, text) {
        Some(file) => {
            let written = line.line(alloc, text, file)?;
            Ok(written.as_slice() == wanted.as_bytes())
        }
        None => Ok(false),
    }
}

/// The question has these lines, each to the file of its text.
pub fn each_line<L: Line>(rt: &(impl Abort + AllocGlobal), question: L, lines: &[(&str, &str)]) {
    for (text, wanted) in lines {
        shows(rt, text, is_written(rt.alloc(), question, text, wanted));
    }
}

/// A process `new (x: FIRST); new (y: SECOND); out CHANNEL DATUM` with its parts.
#[derive(Clone, Copy)]
pub struct Sample<'f> {
    pub process: &'f Process,
    pub first: &'f Ty,
    pub second: &'f Ty,
    pub channel: &'f Msg,
    pub datum: &'f Msg,
}

fn form_of_node(process: &Process, id: u32) -> Option<&Form> {
    if id < process.len() {
        Some(&process.node(id).form)
    } else {
        None
    }
}

fn fresh_at(process: &Process, id: u32) -> Option<&Ty> {
    match form_of_node(process, id)? {
        Form::Fresh { ty, body: _ } => Some(ty),
        _ => None,
    }
}

/// The parts, where a file's process is of that form.
pub fn sample_of(file: &File) -> Option<Sample<'_>> {
    let process = &file.process;
    let first = fresh_at(process, 0)?;
    let second = fresh_at(process, 1)?;
    match form_of_node(process, 2)? {
        Form::Send { channel, datum } => Some(Sample {
            process,
            first,
            second,
            channel,
            datum,
        }),
        _ => None,
    }
}

/// A question to the parts of a sample.
pub trait SampleQuestion: Copy {
    fn answer_of(self, alloc: Global, parts: &Sample<'_>) -> Result<u64, NoMemory>;
}

impl<Q: SampleQuestion> Question for Q {
    fn answer(self, alloc: Global, file: &File) -> Result<u64, NoMemory> {
        match &sample_of(file) {
            Some(parts) => self.answer_of(alloc, parts),
            None => Ok(MISSING),
        }
    }
}

/// The words of a command line.
pub fn words_of(alloc: Global, words: &[&str]) -> Result<Vec<String>, NoMemory> {
    let mut asked = Vec::new(alloc);
    for word in words {
        asked.push(String::from_str(alloc, word)?)?;
    }
    Ok(asked)
}

/// What a run of the words over these streams writes, and its code.
pub fn run_over(
    alloc: Global,
    words: &[&str],
    streams: (MemorySource, MemorySink),
    players: &mut Vec<Box<dyn Player>>,
) -> Result<(Vec<u8>, u8), NoMemory> {
    let asked = words_of(alloc, words)?;
    let (mut source, mut sink) = streams;
    let status = run(
        alloc,
        Afterwards::GoesOn,
        &asked,
        &mut source,
        &mut sink,
        players,
    );
    Ok((sink.bytes().to_vec(alloc)?, status.code()))
}

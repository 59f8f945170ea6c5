// The page that an explanation is written on.
use crate::NoMemory;
use crate::source::{Source, put_place, put_snippet};
use spi_text::Span;
use std::alloc::{AllocError, Global};

/// How an explanation is written.
#[derive(Clone, Copy)]
pub struct Style {
    /// With the escape codes of a terminal's colours.
    pub color: bool,
    /// One finding a line: `FROM-TO KIND: text`, with the offsets of its bytes, or `KIND: text` where it has no place.
    pub lines: bool,
}

/// The kinds of findings. In front of each there is an empty line, but not between further nodes.
#[derive(Clone, Copy, PartialEq, Eq)]
pub enum Kind {
    /// What `check` says no to, or refuses.
    Wrong,
    /// A further node that blocks.
    Also,
    /// What helps to understand it.
    Note,
    /// What usually mends it.
    Help,
}

fn word_of(kind: Kind) -> &'static str {
    match kind {
        Kind::Wrong => "wrong",
        Kind::Also => "also",
        Kind::Note => "note",
        Kind::Help => "help",
    }
}

fn color_of(kind: Kind) -> &'static str {
    match kind {
        Kind::Wrong => "\x1b[1;31m",
        Kind::Also => "\x1b[1;31m",
        Kind::Note => "\x1b[1;36m",
        Kind::Help => "\x1b[1;32m",
    }
}

/// What is written so far. It remembers that memory ran out, and is asked once.
#[derive(Drop)]
pub struct Page {
    alloc: Global,
    style: Style,
    text: Vec<u8>,
    is_lost: bool,
}

impl Page {
    /// An empty page.
    pub fn new(alloc: Global, style: Style) -> Page {
        Page {
            alloc,
            style,
            text: Vec::new(alloc),
            is_lost: false,
        }
    }

    /// The memory that it is written in.
    pub fn alloc(&self) -> Global {
        self.alloc
    }

    /// Puts bytes on the page, or notes that memory ran out.
    pub fn put_bytes(&mut self, bytes: &[u8]) {
        if self.text.extend_from_slice(bytes).is_err() {
            self.is_lost = true;
        }
    }

    /// Puts a text on the page.
    pub fn put(&mut self, text: &str) {
        self.put_bytes(text.as_bytes());
    }

    /// Puts a number on the page, in decimal.
    pub fn put_number(&mut self, n: usize) {
        match format!(in self.alloc; "{n}") {
            Ok(text) => self.put(text.as_str()),
            Err(_) => self.is_lost = true,
        }
    }

    /// So many times the text.
    pub fn put_times(&mut self, text: &str, times: usize) {
        for _ in 0..times {
            self.put(text);
        }
    }

    /// The code of a colour, where colours are wanted.
    pub fn put_color(&mut self, code: &str) {
        if self.style.color {
            self.put(code);
        }
    }

    /// Memory ran out.
    pub fn lose(&mut self) {
        self.is_lost = true;
    }

    /// Whether each finding stands on a line of its own.
    pub fn is_in_lines(&self) -> bool {
        self.style.lines
    }

    /// Begins a finding, which has a place or none. Its text comes next.
    pub fn open(&mut self, kind: Kind, place: Option<Span>) {
        if self.style.lines {
            if let Some(span) = place {
                self.put_number(span.from as usize);
                self.put("-");
                self.put_number(span.to as usize);
                self.put(" ");
            }
            self.put(word_of(kind));
            self.put(": ");
        } else {
            if kind != Kind::Also {
                self.put("\n");
            }
            self.put_color(color_of(kind));
            self.put(word_of(kind));
            self.put_color("\x1b[0m");
            self.put(": ");
        }
    }

    /// Ends a finding, with its place and the line of the source, or without.
    pub fn close(&mut self, source: &Source<'_>, place: Option<Span>) {
        self.put("\n");
        if !self.style.lines {
            if let Some(span) = place {
                put_snippet(self, source, span);
            }
        }
    }

    /// Ends a finding with its place alone.
    pub fn close_short(&mut self, source: &Source<'_>, place: Span) {
        if !self.style.lines {
            self.put(" (at ");
            put_place(self, source, place.from);
            self.put(")");
        }
        self.put("\n");
    }

    /// What was written.
    pub fn into_text(self) -> Result<Vec<u8>, NoMemory> {
        let Page {
            alloc: _,
            style: _,
            text,
            is_lost,
        } = self;
        if is_lost {
            return Err(AllocError);
        }
        Ok(text)
    }
}

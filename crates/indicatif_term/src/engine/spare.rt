//! Room that was taken before.
ghost use Rattle.std.specs.Prelude.{◌≡◌, ◌≤◌, [], length, take, drop, vec_capacity, string_bytes, IfOk, IfErr};

use crate::engine::beside::NewLine;
use crate::engine::layout::{Laid, Plan};
use crate::engine::remembered::{Span, StandingLine};
use indicatif_text::columns::Refusal;
use std::alloc::Global;
use std::marker::Model;
use std::mem::{replace, swap};

/// Room for the next lines and texts, so that a drawing takes none anew. Contracts see nothing of it.
pub struct Spare {
    lines: Vec<StandingLine>,
    changed: Vec<NewLine>,
    texts: Vec<String>,
    alloc: Global,
}

impl Drop for Spare {
    fn drop(self) {
        let Spare {
            lines: _,
            changed: _,
            texts: _,
            alloc: _,
        } = self;
    }
}

impl Model for Spare {
    ghost Value = { Unit };

    ghost view = { λ _. tt };
}

impl Spare {
    ghost use Rattle.indicatif_term.specs.Inside.Layouts.{IsNoneLaid};

    /// No spare room yet.
    pub fn new(alloc: Global) -> Spare {
        Spare {
            lines: Vec::new(alloc),
            changed: Vec::new(alloc),
            texts: Vec::new(alloc),
            alloc,
        }
    }

    /// Lends the spare room for lines that there is to a frame of which nothing is laid out yet.
    pub fn lend(&mut self) -> Laid
        ensures { IsNoneLaid result }
    {
        let mut laid = Laid {
            plan: Plan::none(),
            blanks: 0,
            at: 0,
            changed: replace(&mut self.changed, Vec::new(self.alloc)),
            more: replace(&mut self.lines, Vec::new(self.alloc)),
            leaves_open: false,
        };
        laid.changed.clear();
        laid.more.clear();
        laid
    }

    /// A text in spare room. Refused: `Memory`.
    pub fn copied(&mut self, text: &str) -> Result<String, Refusal>
        ensures text { IfOk result (λ own. string_bytes own ≡ text.now) }
        ensures memory { IfErr result (λ e. e ≡ Refusal.Memory) }
    {
        let mut own = self.texts.pop().unwrap_or(self.no_text());
        own.clear();
        own.push_str(text)?;
        Ok(own)
    }

    /// An empty text that takes no room.
    pub fn no_text(&self) -> String
        ensures { string_bytes result ≡ [] }
    {
        String::new(self.alloc)
    }

    /// Takes back the room that was lent to a frame.
    pub fn store_laid(&mut self, laid: &mut Laid) {
        self.empty(laid);
        swap(&mut self.changed, &mut laid.changed);
        swap(&mut self.lines, &mut laid.more);
    }

    /// Takes all lines of a frame away, and keeps the room of their texts as spare.
    pub fn empty(&mut self, laid: &mut Laid)
        ensures { IsNoneLaid laid.new }
    {
        laid.plan = Plan::none();
        laid.blanks = 0;
        laid.at = 0;
        laid.leaves_open = false;
        self.store_new(&mut laid.changed);
        self.store_behind(&mut laid.more, 0);
    }

    /// Takes new lines away, and keeps the room of their texts as spare.
    fn store_new(&mut self, changed: &mut Vec<NewLine>)
        ensures { changed.new.items ≡ [] }
    {
        while let Some(line) = changed.pop() {
            self.store_text(line.text);
        }
    }

    /// Keeps as spare the room of a text that is no more, if it has any and there is room for that.
    pub fn store_text(&mut self, text: String) {
        if text.capacity() > 0 {
            let _ = self.texts.push(text);
        }
    }

    /// Keeps as spare the room of both texts of a line.
    fn store_both(&mut self, line: StandingLine) {
        let StandingLine {
            bar: _,
            text,
            before,
            rows: _,
            last: _,
            narrow: _,
            step: _,
        } = line;
        self.store_text(before);
        self.store_text(text);
    }

    /// Takes the lines behind the first `count` away, and keeps the room of their texts as spare.
    pub fn store_behind(&mut self, lines: &mut Vec<StandingLine>, count: usize)
        ensures lines { lines.new.items ≡ take count lines.old.items }
        ensures room { vec_capacity lines.new ≡ vec_capacity lines.old }
    {
        while lines.len() > count {
            if let Some(line) = lines.pop() {
                self.store_both(line);
            }
        }
    }

    /// Takes the lines before and behind some away, and keeps the room of their texts as spare.
    pub fn store_around(&mut self, lines: &mut Vec<StandingLine>, stays: Span)
        requires { stays.to ≤ length lines.old.items }
        ensures lines { lines.new.items ≡ drop stays.from (take stays.to lines.old.items) }
        ensures room { vec_capacity lines.new ≡ vec_capacity lines.old }
    {
        self.store_behind(lines, stays.to);
        if stays.from == 0 {
            return;
        }
        lines.rotate_left(stays.from);
        self.store_behind(lines, stays.to - stays.from);
    }
}

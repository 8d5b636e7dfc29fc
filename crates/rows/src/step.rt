use crate::escapes::unescaped;
use std::alloc::Global;

/// What a call returned, in the words of the rows and with their escapes, or `None` if the program doesn't know the
/// call, can't read its words, or is out of memory.
pub type Answer = Option<String>;

/// What the steps of a row are played on.
pub trait Player {
    /// What the step's call returns.
    fn answer(&mut self, step: Step<'_>) -> Answer;
}

/// A call and what it has to return, as they are written, with their escapes.
#[derive(Clone, Copy)]
pub struct Step<'t> {
    /// What its answer is allocated by.
    pub alloc: Global,
    /// The number of its line in the file, from 1 on.
    pub line: usize,
    /// The first word.
    pub call: &'t str,
    /// What follows the first word.
    pub words: &'t str,
    /// What it has to return. A step that says nothing of it has to return `done`.
    pub wanted: &'t str,
}

impl<'t> Step<'t> {
    /// The step that is written so: `CALL WORDS`, or `CALL WORDS -> ANSWER`.
    pub(crate) fn parse(alloc: Global, line: usize, text: &'t str) -> Step<'t> {
        let (words, wanted) = text.rsplit_once(" -> ").unwrap_or((text, "done"));
        let step = Step {
            alloc,
            line,
            call: "",
            words,
            wanted,
        };
        step.inner()
    }

    /// The same step with these words.
    pub fn with_words(self, words: &'t str) -> Step<'t> {
        Step { words, ..self }
    }

    /// The step that the words are, as `add a=1` of `host add a=1`.
    pub fn inner(self) -> Step<'t> {
        let (call, words) = self.words.split_once(' ').unwrap_or((self.words, ""));
        Step {
            call,
            words,
            ..self
        }
    }

    /// The same step with the words before the first bar, and with those after it.
    pub fn halves(self) -> (Step<'t>, Step<'t>) {
        let (front, back) = self.words.split_once(" | ").unwrap_or((self.words, ""));
        (self.with_words(front), self.with_words(back))
    }

    /// The bytes that the words stand for.
    pub fn bytes(self) -> Option<Vec<u8>> {
        unescaped(self.alloc, self.words)
    }

    /// The text that the words stand for.
    pub fn text(self) -> Option<String> {
        String::from_utf8(self.bytes()?).ok()
    }
}

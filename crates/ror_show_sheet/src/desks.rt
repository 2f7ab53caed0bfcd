//! What stands at the desks of a session, as far as it can be told without an answer.

use std::alloc::{AllocError, Global};

/// The most statements that stand at a desk.
const MOST_STANDING: usize = 200;

/// So many statements on classes, with any others, never take more rows than a desk has.
const MOST_SURE_CLASSES: usize = 59;

/// What a line did at a desk.
#[derive(Clone, Copy)]
enum Revision {
    Added,
    Withdrawn(usize),
    Replaced,
}

/// A desk: which numbers stand, from 1, and which revisions survive. Behind a repair, of which an answer says what it drops, and behind
/// many statements on classes, which may take too many rows, that isn't known: then there are at most so many numbers.
#[derive(Drop)]
pub(crate) struct Desk {
    stands: Vec<bool>,
    revisions: Vec<Revision>,
    standing: usize,
    classes: usize,
    is_known: bool,
    pub(crate) statements: usize,
    pub(crate) questions: usize,
    /// How many questions were asked when nothing stood.
    pub(crate) bare_questions: usize,
    /// How many lines will be refused.
    pub(crate) refused: usize,
}

impl Desk {
    /// A desk at which so many statements stand, and of them so many on classes.
    pub(crate) fn new(alloc: Global, opening: usize, classes: usize) -> Result<Desk, AllocError> {
        let mut stands = Vec::new(alloc);
        for _ in 0..opening {
            stands.push(true)?;
        }
        Ok(Desk {
            stands,
            revisions: Vec::new(alloc),
            standing: opening,
            classes,
            is_known: classes <= MOST_SURE_CLASSES,
            statements: 0,
            questions: 0,
            bare_questions: 0,
            refused: 0,
        })
    }

    /// Whether it is known which numbers stand.
    pub(crate) fn is_known(&self) -> bool {
        self.is_known
    }

    /// Whether surely no statement with this number stands.
    pub(crate) fn lacks(&self, number: u32) -> bool {
        match self.stands.get((number as usize).wrapping_sub(1)) {
            Some(stands) => self.is_known && !*stands,
            None => true,
        }
    }

    /// Whether surely no more statement is taken.
    pub(crate) fn is_full(&self) -> bool {
        self.is_known && self.standing >= MOST_STANDING
    }

    /// Whether a statement may be too many, though it isn't surely.
    pub(crate) fn may_be_full(&self) -> bool {
        !self.is_known && (self.classes > MOST_SURE_CLASSES || self.stands.len() >= MOST_STANDING)
    }

    /// Whether surely no revision survives.
    pub(crate) fn is_at_start(&self) -> bool {
        self.is_known && self.revisions.is_empty()
    }

    pub(crate) fn refuse(&mut self) {
        self.refused = self.refused.saturating_add(1);
    }

    pub(crate) fn ask(&mut self) {
        self.questions = self.questions.saturating_add(1);
        if self.stands.is_empty() || (self.is_known && self.standing == 0) {
            self.bare_questions = self.bare_questions.saturating_add(1);
        }
    }

    pub(crate) fn add(&mut self) -> Result<(), AllocError> {
        self.stands.push(true)?;
        self.standing = self.standing.saturating_add(1);
        self.statements = self.statements.saturating_add(1);
        self.revisions.push(Revision::Added)?;
        Ok(())
    }

    pub(crate) fn withdraw(&mut self, number: u32) -> Result<(), AllocError> {
        let place = (number as usize).wrapping_sub(1);
        self.set(place, false);
        self.standing = self.standing.saturating_sub(1);
        self.revisions.push(Revision::Withdrawn(place))?;
        Ok(())
    }

    pub(crate) fn replace(&mut self) -> Result<(), AllocError> {
        self.statements = self.statements.saturating_add(1);
        self.revisions.push(Revision::Replaced)?;
        Ok(())
    }

    /// From here on it isn't known which numbers stand.
    pub(crate) fn repair(&mut self) {
        self.is_known = false;
    }

    /// A statement on classes is stated.
    pub(crate) fn count_class(&mut self) {
        self.classes = self.classes.saturating_add(1);
        if self.classes > MOST_SURE_CLASSES {
            self.is_known = false;
        }
    }

    /// Takes the last revision back, where it is known which one that is.
    pub(crate) fn undo(&mut self) {
        if !self.is_known {
            return;
        }
        match self.revisions.pop() {
            Some(Revision::Added) => {
                let _ = self.stands.pop();
                self.standing = self.standing.saturating_sub(1);
            }
            Some(Revision::Withdrawn(place)) => {
                self.set(place, true);
                self.standing = self.standing.saturating_add(1);
            }
            Some(Revision::Replaced) | None => {}
        }
    }

    fn set(&mut self, place: usize, to: bool) {
        if let Some(stands) = self.stands.get_mut(place) {
            *stands = to;
        }
    }
}

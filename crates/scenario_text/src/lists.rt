//! Lines of one kind.

ghost use Rattle.std.specs.Prelude.{◌≡◌, ◌<◌, ◌++◌, ◌∷◌, [], length, slice_get, Some, OnOk, OnErr};
ghost use Rattle.scenario_text.specs.Drafts.{is_nil, with_step, last_steps};

use crate::scenario::{AppLine, Step};
use std::alloc::{AllocError, Global};
use std::marker::Model;

/// Lines of one kind of a scenario, or the steps of an application, seen as their list.
#[derive(Drop)]
pub struct Lines<T> {
    items: Vec<T>,
}

impl<T> Model for Lines<T> {
    ghost use Rattle.std.specs.Prelude.{List};

    ghost Value = { List T };

    ghost view = { λ l. l.items.items };
}

impl<T: Drop> Lines<T> {
    /// None. It takes no memory.
    pub fn new(alloc: Global) -> Lines<T>
        ensures { result ≡ [] }
    {
        Lines {
            items: Vec::new(alloc),
        }
    }

    /// Appends one. The error is want of memory, and leaves the others as they were.
    pub fn push(&mut self, item: T) -> Result<(), AllocError>
        ensures ok { OnOk result (self.new ≡ self.old ++ item ∷ []) }
        ensures err { OnErr result (self.new ≡ self.old) }
    {
        self.items.push(item)?;
        Ok(())
    }

    /// Whether there is none.
    pub(crate) fn is_nil(&self) -> bool
        ensures { result ≡ is_nil self.now }
    {
        match self.items.as_slice() {
            [] => true,
            [_, ..] => false,
        }
    }

    /// How many there are.
    pub fn len(&self) -> usize
        ensures { result ≡ length self.now }
    {
        self.items.len()
    }

    /// The one at a place, counted from 0.
    pub fn item(&self, i: usize) -> &T
        requires { i < length self.now }
        ensures { slice_get self.now i ≡ Some result.now }
    {
        &self.items[i]
    }

    /// All of them, in their order.
    pub fn as_slice(&self) -> &[T]
        ensures { result.now ≡ self.now }
    {
        self.items.as_slice()
    }
}

impl Lines<AppLine> {
    /// Appends a step to the last application's, where there is one. The error is want of memory.
    pub(crate) fn push_step(&mut self, step: Step) -> Result<(), AllocError>
        ensures { OnOk result (self.new ≡ with_step self.old step) }
    {
        if let Some(last) = self.items.len().checked_sub(1) {
            self.items[last].steps.push(step)?;
        }
        Ok(())
    }

    /// How many steps the last one has.
    pub(crate) fn last_steps(&self) -> usize
        ensures { result ≡ length (last_steps self.now) }
    {
        match self.items.len().checked_sub(1) {
            Some(last) => self.items[last].steps.len(),
            None => 0,
        }
    }
}

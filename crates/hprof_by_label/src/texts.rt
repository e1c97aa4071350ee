//! Labels, each with a number.

use std::alloc::{AllocError, Global};
use std::collections::BTreeMap;

/// Labels, numbered in the order in which they were added.
#[derive(Drop)]
pub(crate) struct Texts {
    /// For each number its label.
    pub(crate) texts: Vec<String>,
    /// For each label its number.
    pub(crate) numbers: BTreeMap<String, usize>,
}

impl Texts {
    ghost use Rattle.std.specs.Prelude.{◌≡◌, ◌≤◌, ◌+◌, [], IfOk, None, OnOk, length, string_bytes};
    ghost use Rattle.std.specs.BTreeMap.{get_by_text};
    ghost use Rattle.hprof_by_label.specs.Texts.{AreNumbered, IsTextIn, StaysIn};

    /// Returns no labels. Allocates nothing.
    pub(crate) fn new(alloc: Global) -> Texts
        ensures none { result.texts.items ≡ [] }
        ensures numbered { AreNumbered result }
    {
        Texts {
            texts: Vec::new(alloc),
            numbers: BTreeMap::new(alloc),
        }
    }

    /// Returns the number of a label, or `None` if it is not there.
    fn find(&self, label: &str) -> Option<usize>
        ensures { result ≡ get_by_text self.now.numbers label.now }
    {
        self.numbers.get(label).copied()
    }

    /// Adds a label that is not there, and returns its number. If memory runs out, the answer is `AllocError` and the labels are
    /// unspecified.
    fn add(&mut self, label: String) -> Result<usize, AllocError>
        requires numbered { AreNumbered self.old }
        requires new { get_by_text self.old.numbers (string_bytes label) ≡ None }
        ensures numbered { OnOk result (AreNumbered self.new) }
        ensures number { IfOk result (λ number. IsTextIn self.new.texts.items number (string_bytes label)) }
        ensures stays { OnOk result (StaysIn self.old.texts.items self.new.texts.items) }
        ensures few { OnOk result (length self.new.texts.items ≤ length self.old.texts.items + 1) }
    {
        let number = self.texts.len();
        let text = label.clone()?;
        self.texts.push(text)?;
        self.numbers.insert(label, number)?;
        Ok(number)
    }

    /// Returns the number of a label. A label that is not there is added. If memory runs out, the answer is `AllocError` and the labels
    /// are unspecified.
    pub(crate) fn number_of(&mut self, label: String) -> Result<usize, AllocError>
        requires { AreNumbered self.old }
        ensures numbered { OnOk result (AreNumbered self.new) }
        ensures number { IfOk result (λ number. IsTextIn self.new.texts.items number (string_bytes label)) }
        ensures stays { OnOk result (StaysIn self.old.texts.items self.new.texts.items) }
        ensures few { OnOk result (length self.new.texts.items ≤ length self.old.texts.items + 1) }
    {
        match self.find(label.as_str()) {
            Some(number) => Ok(number),
            None => self.add(label),
        }
    }
}

//! Edges that are listed by number.

ghost use Rattle.std.specs.Prelude.{◌<◌, ◌↔◌, ◌⊎◌, ℕ, OnOk, All, Contains};
ghost use Rattle.hprof_numbers.specs.Lists.{IsListed, LeadsWithin, count_in};

use crate::steps::Steps;
use hprof_numbers::{Lists, Numbered};
use std::alloc::AllocError;

/// Edges that are listed: for each number those of the nodes to which its node refers.
#[derive(Clone, Copy)]
pub struct ByLists<'l> {
    /// A list for each node.
    pub lists: &'l Lists,
}

impl<'l> Steps for ByLists<'l> {
    ghost use Rattle.hprof_search.specs.ByLists.{IsListOf, LeadsByList};

    ghost leads = { λ it nodes. LeadsByList it.lists.now nodes };

    ghost stands = { λ it nodes. IsListOf it.lists.now nodes };

    fn steps_from(
        &mut self,
        _numbered: &Numbered,
        from: usize,
        numbers: &mut Vec<u32>,
    ) -> Result<(), AllocError> {
        numbers.clear();
        for place in self.lists.start(from)..self.lists.end(from) {
            let Ok(number) = u32::try_from(self.lists.get(place)) else {
                return Err(AllocError);
            };
            numbers.push(number)?;
        }
        Ok(())
    }
}

//! Of which rules the lines of a sieve are: how far a look-up passes over them.

ghost use Rattle.std.specs.Prelude.{◌≡◌, ◌≤◌, ℕ, IfOk, List, Some, true};
ghost use Rattle.pcef_index.specs.declared.lines.Line.{Line};
ghost use Rattle.pcef_index.specs.private.Runs.{AreLeasts, AreRuns, rule_at};

use crate::lines::Line;
use std::alloc::{AllocError, Global};

/// Which lines of a list, by their numbers, are of which rules.
#[derive(Drop)]
pub(crate) struct Runs {
    /// For each line the least number of a rule that it is of, or a line behind it.
    leasts: Vec<u8>,
}

/// The number of the rule of the line whose number stands at a place.
pub(crate) fn rule_at(lines: &[Line], numbers: &[usize], place: usize) -> Option<u8>
    ensures { result ≡ rule_at lines.now numbers.now place }
{
    let number = numbers.get(place)?;
    let line = lines.get(*number)?;
    Some(line.place)
}

/// For each line the least number of a rule that it is of, or a line behind it.
fn leasts_of(alloc: Global, lines: &[Line], numbers: &[usize]) -> Result<Vec<u8>, AllocError>
    ensures { IfOk result (λ v. AreLeasts 0 lines.now numbers.now v.items) }
{
    let mut leasts = vec![in alloc; 0u8; numbers.len()]?;
    let mut least = u8::MAX;
    for behind in 0..numbers.len() {
        let place = numbers.len() - 1 - behind;
        if let Some(rule) = rule_at(lines, numbers, place) {
            least = least.min(rule);
        }
        leasts[place] = least;
    }
    Ok(leasts)
}

impl Runs {
    /// Those of lines with these numbers. Fails when out of memory.
    pub(crate) fn new(alloc: Global, lines: &[Line], numbers: &[usize]) -> Result<Runs, AllocError>
        ensures { IfOk result (AreRuns lines.now numbers.now) }
    {
        let leasts = leasts_of(alloc, lines, numbers)?;
        Ok(Runs { leasts })
    }

    /// Whether neither the line at a place nor one behind it is of one of so many first rules.
    #[inline(always)]
    pub(crate) fn are_behind(&self, place: usize, rules: usize) -> bool
        ensures { (lines : List Line) (numbers : List ℕ) (j k : ℕ) → AreRuns lines numbers self.now → result ≡ true
            → place ≤ j → rule_at lines numbers j ≡ Some k → rules ≤ k }
    {
        match self.leasts.get(place) {
            Some(least) => usize::from(*least) >= rules,
            None => false,
        }
    }
}

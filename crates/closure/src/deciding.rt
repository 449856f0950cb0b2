//! Deciding conditions by the labels of the smallest congruence with their equations.
ghost use Rattle.std.specs.Prelude.{◌≡◌, ℕ, ◌+◌, ◌<◌, ◌≤◌, ◌∷◌, length, Decides, MatchResult, slice_index_or};
ghost use Rattle.fault.specs.declared.TableFault.TheVariants.{BadMemory};
ghost use Rattle.closure.specs.Labels.{no_condition, classes, Ready, Decided, Concluded};
ghost use Rattle.closure.specs.Working.{Assumed, Settled, Broken, Spare, negated};

use super::labels::{join, start};
use super::places::Places;
use super::table::saturate;
use fault::TableFault;
use terms::{Condition, Count, Sign, TermRecord};

/// Takes a condition in: an equation joins its places. Answers whether two classes became one. The count of terms stands
/// beside the labels as in `join`.
fn assume(labels: &mut [u16], terms: usize, condition: Condition) -> bool
    requires inside { terms ≤ length labels.old }
    requires left { condition.left < terms }
    requires right { condition.right < terms }
    ensures { Assumed terms condition labels.old labels.new result }
{
    match condition.sign {
        Sign::Equal => join(
            labels,
            terms,
            condition.left as usize,
            condition.right as usize,
        ),
        Sign::Different => false,
    }
}

/// Conditions between terms.
#[derive(Drop)]
struct Question<'a> {
    places: Places<'a>,
    conditions: &'a [Condition],
    ghost lefts: { (k : ℕ) → k < length conditions.now → (slice_index_or conditions.now k no_condition).left < places.terms },
    ghost rights: { (k : ℕ) → k < length conditions.now → (slice_index_or conditions.now k no_condition).right < places.terms },
}

impl<'a> Question<'a> {
    /// Refuses memory that does not hold the terms with a label for each, and conditions that are not between them.
    fn new(
        bank: &'a [TermRecord],
        count: Count,
        conditions: &'a [Condition],
        labels: &[u16],
    ) -> Result<Self, TableFault>
        ensures { MatchResult result (λ q. Ready bank.now count.terms conditions.now labels.now × (q.places.bank.now ≡ bank.now) × (q.places.terms ≡ count.terms) × (q.conditions.now ≡ conditions.now)) (λ e. (e ≡ BadMemory) × (Ready bank.now count.terms conditions.now labels.now → ⊥)) }
    {
        let terms = count.terms;
        let places = Places::new(bank, terms as usize).ok_or(TableFault::BadMemory)?;
        if terms as usize > labels.len()
            || !conditions.iter().all(|condition| condition.left < terms
                && condition.right < terms)
        {
            return Err(TableFault::BadMemory);
        }
        Ok(Question { places, conditions })
    }

    /// The labels of the smallest congruence with the conditions' equations; answers how often two classes became
    /// one.
    fn close(&self, labels: &mut [u16]) -> u16
        requires { self.now.places.terms ≤ length labels.old }
        ensures settled { Settled self.now.places.bank.now self.now.places.terms self.now.conditions.now labels.new }
        ensures counted { result + classes self.now.places.terms labels.new ≡ self.now.places.terms }
        ensures spare { Spare self.now.places.terms labels.old labels.new }
    {
        let places = &self.places;
        start(labels, places.terms);
        let mut joins = 0;
        // Counted in the loop: `filter` would take a closure that writes the labels.
        for condition in self.conditions {
            if assume(labels, places.terms, *condition) {
                joins += 1;
            }
        }
        joins + saturate(places, labels)
    }

    /// Whether a disequation stands between places of one label.
    fn is_broken(&self, labels: &[u16]) -> bool
        requires { self.now.places.terms ≤ length labels.now }
        ensures { Decides result (Broken self.now.conditions.now labels.now) }
    {
        self.conditions.iter().any(|condition| {
            condition.sign == Sign::Different
                && labels[condition.left as usize] == labels[condition.right as usize]
        })
    }

    /// Whether the conditions leave the goal no way out: closes the conditions with the goal negated, and answers
    /// whether a disequation is broken then.
    fn is_forced(&self, goal: Condition, labels: &mut [u16]) -> bool
        requires labelled { self.now.places.terms ≤ length labels.old }
        requires left { goal.left < self.now.places.terms }
        requires right { goal.right < self.now.places.terms }
        ensures settled { Settled self.now.places.bank.now self.now.places.terms (negated goal ∷ self.now.conditions.now) labels.new }
        ensures broken { Decides result (Broken (negated goal ∷ self.now.conditions.now) labels.new) }
        ensures spare { Spare self.now.places.terms labels.old labels.new }
    {
        let left = goal.left as usize;
        let right = goal.right as usize;
        let _ = self.close(labels);
        match goal.sign {
            Sign::Equal => labels[left] == labels[right] || self.is_broken(labels),
            Sign::Different => {
                join(labels, self.places.terms, left, right);
                let _ = saturate(&self.places, labels);
                self.is_broken(labels)
            }
        }
    }
}

/// What closure finds of conditions: whether no interpretation meets them, and how often two classes became one.
// No `Option` of the number, which counts in both cases.
#[derive(Clone, Copy)]
pub struct Verdict {
    pub impossible: bool,
    pub joins: u16,
}

/// Decides whether some interpretation meets the conditions, and leaves in `labels` those of the smallest congruence
/// with their equations, one for each of the bank's terms.
pub fn decide(
    bank: &[TermRecord],
    count: Count,
    conditions: &[Condition],
    labels: &mut [u16],
) -> Result<Verdict, TableFault>
    ensures { Decided bank.now count.terms conditions.now labels.old labels.new result }
{
    let question = Question::new(bank, count, conditions, labels)?;
    let joins = question.close(labels);
    let impossible = question.is_broken(labels);
    Ok(Verdict { impossible, joins })
}

/// Decides whether every interpretation that meets the conditions meets the goal too. The labels are work memory.
pub fn entails(
    bank: &[TermRecord],
    count: Count,
    conditions: &[Condition],
    goal: Condition,
    labels: &mut [u16],
) -> Result<bool, TableFault>
    ensures { Concluded bank.now count.terms conditions.now goal labels.old labels.new result }
{
    let question = Question::new(bank, count, conditions, labels)?;
    if goal.left >= count.terms || goal.right >= count.terms {
        return Err(TableFault::BadMemory);
    }
    Ok(question.is_forced(goal, labels))
}

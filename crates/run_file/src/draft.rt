//! What the lines so far say.
ghost use Rattle.std.specs.Prelude.{◌≡◌, ℕ, vec_items};
ghost use Rattle.text_words.specs.Words.{words_in, words_of};
ghost use Rattle.run_file.specs.Reading.{Means, Said, plant_of, numbers_of, so_far, nothing, named, fresh, first_named, acted, line_says};

use crate::directive::{Keyword, curve_of, entry_of, one_of};
use crate::numbers::number;
use crate::{Halt, Plant};
use run_file_error::Problem;
use std::alloc::Global;
use text_words::{before_comment, split_word};

#[derive(Drop)]
pub(crate) struct Draft {
    pub(crate) plant: Option<Plant>,
    pub(crate) starts: Option<Vec<u32>>,
    pub(crate) steps: Option<u32>,
    pub(crate) inputs: Vec<u32>,
}

/// The numbers that the words of a text write.
fn numbers(heap: Global, text: &[u8]) -> Result<Vec<u32>, Halt>
    ensures { Means vec_items result (numbers_of (words_in text.now)) }
{
    let mut found = Vec::new(heap);
    let mut rest = text;
    while let Some((word, after)) = split_word(rest) {
        found.push(number(word)?)?;
        rest = after;
    }
    Ok(found)
}

/// Refuses what was given before.
// By a test: what is refused is that there is one.
fn check_fresh<T>(given: &Option<T>, repeated: Problem) -> Result<(), Problem>
    ensures { result ≡ fresh repeated given.now }
{
    if given.is_some() {
        return Err(repeated);
    }
    Ok(())
}

impl Draft {
    pub(crate) fn new(heap: Global) -> Draft
        ensures { so_far result ≡ nothing }
    {
        Draft {
            plant: None,
            starts: None,
            steps: None,
            inputs: Vec::new(heap),
        }
    }

    fn check_named(&self) -> Result<(), Problem>
        ensures { result ≡ named (so_far self.now).plant }
    {
        self.plant
            .as_ref()
            .map(|_| ())
            .ok_or(Problem::PlantNotFirst)
    }

    /// Names the plant, which one number makes.
    fn name_plant<F: FnOnce(u32) -> Plant>(&mut self, numbers: &[u32], plant: F) -> Result<(), Halt>
        requires { F.IsAlwaysCallable plant }
        ensures { (said : ℕ → Said) → ((n : ℕ) (p : Plant) → F.post plant n p → plant_of p ≡ said n) → Means (λ _. so_far self.new) result (first_named said (so_far self.old) numbers.now) }
    {
        check_fresh(&self.plant, Problem::PlantRepeated)?;
        self.plant = Some(plant(one_of(numbers)?));
        Ok(())
    }

    // Beside `add_curve`: each takes another arm of the plant.
    fn add_entry(&mut self, numbers: &[u32]) -> Result<(), Halt>
        ensures { Means (λ _. so_far self.new) result (acted Keyword.Entry (so_far self.old) numbers.now) }
    {
        match &mut self.plant {
            Some(Plant::Listed { entries, .. }) => entries.push(entry_of(numbers)?)?,
            Some(Plant::Affine { .. }) => return Err(Problem::EntryUnderAffine.into()),
            None => return Err(Problem::PlantNotFirst.into()),
        }
        Ok(())
    }

    fn add_curve(&mut self, numbers: &[u32]) -> Result<(), Halt>
        ensures { Means (λ _. so_far self.new) result (acted Keyword.Curve (so_far self.old) numbers.now) }
    {
        match &mut self.plant {
            Some(Plant::Affine { curves, .. }) => curves.push(curve_of(numbers)?)?,
            Some(Plant::Listed { .. }) => return Err(Problem::CurveUnderListed.into()),
            None => return Err(Problem::PlantNotFirst.into()),
        }
        Ok(())
    }

    fn set_starts(&mut self, numbers: Vec<u32>) -> Result<(), Halt>
        ensures { Means (λ _. so_far self.new) result (acted Keyword.Start (so_far self.old) numbers.items) }
    {
        self.check_named()?;
        check_fresh(&self.starts, Problem::StartRepeated)?;
        self.starts = Some(numbers);
        Ok(())
    }

    // Beside `set_starts`: another field, and its number is made out only after the checks.
    fn set_steps(&mut self, numbers: &[u32]) -> Result<(), Halt>
        ensures { Means (λ _. so_far self.new) result (acted Keyword.Steps (so_far self.old) numbers.now) }
    {
        self.check_named()?;
        check_fresh(&self.steps, Problem::StepsRepeated)?;
        self.steps = Some(one_of(numbers)?);
        Ok(())
    }

    fn add_inputs(&mut self, numbers: &[u32]) -> Result<(), Halt>
        ensures { Means (λ _. so_far self.new) result (acted Keyword.Inputs (so_far self.old) numbers.now) }
    {
        self.check_named()?;
        self.inputs.extend_from_slice(numbers)?;
        Ok(())
    }

    /// Takes one directive with its numbers.
    // Named first and taken after its numbers, since an unknown name is refused before a wrong number.
    fn take(&mut self, heap: Global, keyword: Keyword, numbers: Vec<u32>) -> Result<(), Halt>
        ensures { Means (λ _. so_far self.new) result (acted keyword (so_far self.old) numbers.items) }
    {
        match keyword {
            Keyword::Listed => self.name_plant(
                &numbers,
                |default| Plant::Listed {
                    default,
                    entries: Vec::new(heap),
                },
            ),
            Keyword::Affine => self.name_plant(
                &numbers,
                |modulus| Plant::Affine {
                    modulus,
                    curves: Vec::new(heap),
                },
            ),
            Keyword::Entry => self.add_entry(&numbers),
            Keyword::Curve => self.add_curve(&numbers),
            Keyword::Start => self.set_starts(numbers),
            Keyword::Steps => self.set_steps(&numbers),
            Keyword::Inputs => self.add_inputs(&numbers),
        }
    }

    /// Takes one line.
    pub(crate) fn line(&mut self, heap: Global, text: &[u8]) -> Result<(), Halt>
        ensures { Means (λ _. so_far self.new) result (line_says (so_far self.old) (words_of text.now)) }
    {
        let Some((name, rest)) = split_word(before_comment(text)) else {
            return Ok(());
        };
        let keyword = Keyword::try_from(name)?;
        let numbers = numbers(heap, rest)?;
        self.take(heap, keyword, numbers)
    }
}

//! The vector of a successor. All next values come from the old row.
ghost use Rattle.std.specs.Prelude.{◌≤◌, length};
ghost use Rattle.sheet.specs.Runs.{numbered};
ghost use Rattle.candidates.specs.Working.{Walks, Places, Lent, Vectored, next_over};

use crate::instantiating::{Given, Memory};
use fault::TableFault;
use rows::at_or;
use sheet::Reading;

impl Given<'_> {
    fn next_place(
        self,
        memory: &mut Memory<'_>,
        reading: usize,
        next: Option<u8>,
        chosen: &[u8],
    ) -> Result<u16, TableFault>
        ensures lent { Lent memory.old memory.new }
        ensures place { Places self.entry memory.old (λ v values. next_over chosen.now v values reading next) memory.new result }
    {
        match next {
            None => self.reading_place(memory, reading),
            Some(choice) => {
                let term = at_or(chosen, choice as usize, 0);
                self.place_of(memory, term)
            }
        }
    }

    /// The place of each reading's next term, by the terms that the choices come to.
    // Beside `start_vector`: a next term is one of the sheet's over the row, and asks for what is known of them.
    pub(crate) fn next_vector(
        self,
        memory: &mut Memory<'_>,
        readings: &[Reading],
        chosen: &[u8],
    ) -> Result<[u16; 6], TableFault>
        requires { length readings.now ≤ 6 }
        ensures lent { Lent memory.old memory.new }
        ensures places { Walks self.entry memory.old (λ v values. numbered (λ n x. next_over chosen.now v values n x.next) 0 readings.now) memory.new (λ rs m v values. Vectored rs m (numbered (λ n x. next_over chosen.now v values n x.next) 0 readings.now) (length readings.now)) result }
    {
        let mut out = [0; 6];
        // By number: of what a loop over `iter_mut().zip(..)` has written nothing can be proved.
        for (k, reading) in readings.iter().enumerate() {
            out[k] = self.next_place(memory, k, reading.next, chosen)?;
        }
        Ok(out)
    }
}

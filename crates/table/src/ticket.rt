//! Tickets.
ghost use Rattle.std.specs.Prelude.{◌≡◌};
ghost use Rattle.table.specs.Answers.{branch_of, settled};

use fault::TableFault;
use rules::Branch;

/// The right to settle one branch that is out. It has to be spent by give back, strike, merge or keep: it can be neither
/// dropped nor used twice.
pub struct Ticket {
    pub(crate) branch: Branch,
}

impl Ticket {
    /// The branch that the ticket names.
    pub fn branch(&self) -> Branch
        ensures { result ≡ branch_of self.now }
    {
        self.branch
    }

    /// The ticket is spent where the work was done, and handed back where it was refused.
    pub(crate) fn settle<T>(self, made: Result<T, TableFault>) -> Result<T, Refusal>
        ensures { result ≡ settled self made }
    {
        match made {
            Ok(done) => {
                let Ticket { branch: _ } = self;
                Ok(done)
            }
            Err(fault) => Err(Refusal {
                fault,
                ticket: self,
            }),
        }
    }
}

/// Why a call was refused, with the ticket, which is unspent.
pub struct Refusal {
    pub fault: TableFault,
    pub ticket: Ticket,
}

//! What becomes of a branch's mark.
ghost use Rattle.std.specs.Prelude.{◌≡◌};
ghost use Rattle.table.specs.Marks.{next_mark};

use fault::TableFault;
use rules::Mark;

/// What may come to a branch.
#[derive(Clone, Copy, Debug, PartialEq, Eq)]
pub(crate) enum Event {
    Take,
    GiveBack,
    Strike,
    Merge,
    Keep,
}

/// What an event makes of a mark, or why it may not come then.
pub(crate) fn next_mark(mark: Mark, event: Event) -> Result<Mark, TableFault>
    ensures { result ≡ next_mark event mark }
{
    match (event, mark) {
        (Event::Take, Mark::Waiting) => Ok(Mark::Out),
        (Event::Take, _) => Err(TableFault::NotWaiting),
        (Event::GiveBack, Mark::Out) => Ok(Mark::Waiting),
        (Event::Strike, Mark::Out) => Ok(Mark::Struck),
        (Event::Merge, Mark::Out) => Ok(Mark::Merged),
        (Event::Keep, Mark::Out) => Ok(Mark::Kept),
        (_, _) => Err(TableFault::NotOut),
    }
}

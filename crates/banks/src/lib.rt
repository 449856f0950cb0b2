//! Whether memory is a bank, and how many different terms there are.
//! `specs/Room.antt` says when terms have room, `specs/Gains.antt` what interning adds, and `specs/Listing.antt` has the
//! words of the inner functions.
#![tactic(auto)]

ghost use Rattle.banks.specs.Room.{Held};
ghost use Rattle.banks.specs.Gains.{Gained};

mod nodes;
mod testing;

pub use testing::is_bank;

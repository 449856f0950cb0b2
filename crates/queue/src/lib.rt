//! A first-in-first-out queue of fixed room over a slice that the caller lends, for entries of any one type.
//! `specs/Entries.antt` says which list of entries a queue stands for; the calls are proved by that list.
#![tactic(auto)]

ghost use Rattle.std.specs.Prelude.{◌-◌, ◌≤◌, length};

mod calls;

/// A ring: the entries begin at `head`, run to the end of the slots and go on at their start.
#[derive(Drop)]
pub struct Queue<'a, T> {
    slots: &'a mut [T],
    head: usize,
    len: usize,
    ghost inside: { head ≤ length slots.now - 1 },
    ghost fits: { len ≤ length slots.now },
}

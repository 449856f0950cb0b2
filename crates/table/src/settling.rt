//! The calls on a branch: to take it, and to settle it with its ticket. A branch's work is done over the branch alone;
//! then its ticket is spent, or handed back.
ghost use Rattle.std.specs.Prelude.{◌≡◌, IfErr};
ghost use Rattle.rules.specs.declared.Call.{Call};
ghost use Rattle.table.specs.Answers.{branch_of, answer_of_take, answer_of_offer, answer_of_strike, done, joined};
ghost use Rattle.table.specs.Standing.{Performs, KeepsMemory};

use crate::mark::{Event, next_mark};
use crate::offers::{cover, propose, refute};
use crate::places::wait;
use crate::table::Table;
use crate::ticket::{Refusal, Ticket};
use fault::TableFault;
use rules::Branch;

impl Table<'_> {
    /// Takes a branch that waits: the ticket names it.
    pub fn take(&mut self, row: u8, number: u8) -> Result<Ticket, TableFault>
        ensures performs { Performs self.old (Call.Take (record { row = row; number = number }))
            (answer_of_take result) self.new }
        ensures memory { KeepsMemory self.old self.new }
    {
        let branch = Branch { row, number };
        let Some(place) = self.place(branch) else {
            return Err(TableFault::NoSuchBranch);
        };
        self.marks[place] = next_mark(self.marks[place], Event::Take)?;
        Ok(Ticket { branch })
    }

    fn give_branch(&mut self, branch: Branch) -> Result<(), TableFault>
        ensures performs { Performs self.old (Call.GiveBack branch) (done result) self.new }
        ensures memory { KeepsMemory self.old self.new }
    {
        let (place, mark) = self.turn(branch, Event::GiveBack)?;
        self.marks[place] = mark;
        Ok(())
    }

    /// Gives a branch back: it waits again.
    pub fn give_back(&mut self, ticket: Ticket) -> Result<(), Refusal>
        ensures performs { Performs self.old (Call.GiveBack (branch_of ticket))
            (answer_of_offer result) self.new }
        ensures unspent { IfErr result (λ refusal. refusal.ticket ≡ ticket) }
        ensures memory { KeepsMemory self.old self.new }
    {
        let made = self.give_branch(ticket.branch);
        ticket.settle(made)
    }

    fn strike_branch(&mut self, branch: Branch) -> Result<u16, TableFault>
        ensures performs { Performs self.old (Call.Strike branch) (joined result) self.new }
        ensures memory { KeepsMemory self.old self.new }
    {
        let (place, mark) = self.turn(branch, Event::Strike)?;
        let record = self.rows[branch.row as usize];
        let Some(sheet) = &self.sheet else {
            return Err(TableFault::NotOut);
        };
        match refute(
            sheet,
            self.bank,
            &mut self.count,
            &record,
            branch.number,
            self.work,
        ) {
            Ok(joins) => {
                self.marks[place] = mark;
                Ok(joins)
            }
            Err(fault) => Err(fault),
        }
    }

    /// Strikes a branch that no meaning enters, and tells how often two classes were joined for that.
    pub fn strike(&mut self, ticket: Ticket) -> Result<u16, Refusal>
        ensures performs { Performs self.old (Call.Strike (branch_of ticket))
            (answer_of_strike result) self.new }
        ensures unspent { IfErr result (λ refusal. refusal.ticket ≡ ticket) }
        ensures memory { KeepsMemory self.old self.new }
    {
        let made = self.strike_branch(ticket.branch);
        ticket.settle(made)
    }

    fn merge_branch(&mut self, branch: Branch, target: u8, height: u8) -> Result<(), TableFault>
        ensures performs { Performs self.old (Call.Merge branch target height) (done result) self.new }
        ensures memory { KeepsMemory self.old self.new }
    {
        let (place, mark) = self.turn(branch, Event::Merge)?;
        if target >= self.used {
            return Err(TableFault::NoSuchBranch);
        }
        let record = self.rows[branch.row as usize];
        let older = self.rows[target as usize];
        let Some(sheet) = &self.sheet else {
            return Err(TableFault::NotOut);
        };
        if height > sheet.bound {
            return Err(TableFault::HeightAboveBound);
        }
        match cover(
            sheet,
            self.bank,
            &mut self.count,
            &record,
            branch.number,
            &older,
            height,
            self.work,
        ) {
            Ok(()) => {
                self.marks[place] = mark;
                Ok(())
            }
            Err(fault) => Err(fault),
        }
    }

    /// Merges a branch into the target row, which takes the form of the branch at the height.
    pub fn merge(&mut self, ticket: Ticket, target: u8, height: u8) -> Result<(), Refusal>
        ensures performs { Performs self.old (Call.Merge (branch_of ticket) target height)
            (answer_of_offer result) self.new }
        ensures unspent { IfErr result (λ refusal. refusal.ticket ≡ ticket) }
        ensures memory { KeepsMemory self.old self.new }
    {
        let made = self.merge_branch(ticket.branch, target, height);
        ticket.settle(made)
    }

    fn keep_branch(&mut self, branch: Branch, height: u8) -> Result<(), TableFault>
        ensures performs { Performs self.old (Call.Keep branch height) (done result) self.new }
        ensures memory { KeepsMemory self.old self.new }
    {
        let (place, mark) = self.turn(branch, Event::Keep)?;
        let branches = self.branches();
        let record = self.rows[branch.row as usize];
        let Some(sheet) = &self.sheet else {
            return Err(TableFault::NotOut);
        };
        if height > sheet.bound {
            return Err(TableFault::HeightAboveBound);
        }
        match propose(
            sheet,
            self.bank,
            &mut self.count,
            &record,
            branch.number,
            height,
            self.used >= self.limit,
            self.work,
        ) {
            Ok(form) => {
                self.marks[place] = mark;
                wait(self.marks, self.used as usize * branches, branches);
                self.rows[self.used as usize] = form;
                self.used += 1;
                Ok(())
            }
            Err(fault) => Err(fault),
        }
    }

    /// Keeps the form of a branch at the height as a new row, each of whose branches waits.
    pub fn keep(&mut self, ticket: Ticket, height: u8) -> Result<(), Refusal>
        ensures performs { Performs self.old (Call.Keep (branch_of ticket) height)
            (answer_of_offer result) self.new }
        ensures unspent { IfErr result (λ refusal. refusal.ticket ≡ ticket) }
        ensures memory { KeepsMemory self.old self.new }
    {
        let made = self.keep_branch(ticket.branch, height);
        ticket.settle(made)
    }
}

//! Reads a sheet from standard input and shows the first step of its exploration.
//!
//! A sheet with a fault has one line, `sheet fault N record R byte P`. Any other has one for row 0 and then, for each
//! branch of it in order, one for the branch's conditions and, where they are impossible, one with that word. Where they
//! are possible there are three: the form at the sheet's height bound, whether it is safe, and whether row 0 takes it,
//! with what each name of row 0 becomes then.
//!
//!     row 0 bits 0 readings x0 x1 conditions none
//!     branch 0 conditions x2 # s0, x2 # s0
//!     branch 0 form bits 0 readings x0 x2 conditions x2 # s0
//!     branch 0 safe yes
//!     branch 0 taken yes renaming x0 to x0, x1 to x2
//!     branch 1 conditions x2 = s0, x2 # s0
//!     branch 1 impossible
//!
//! A list without an element is `none`. Where a call refuses, `fault N` stands in place of its answer, and lines that
//! need the answer are left out. Terms and conditions are written as in the crate `notation`.
#![tactic(auto)]

mod writing;

use anyhow::anyhow;
use candidates::{Conditions, branch_conditions, candidate, first_row, is_safe};
use closure::decide;
use fault::{Failure, TableFault};
use folding::{form, takes};
use reader::{read, smallest};
use rows::{RowRecord, front, names_of_row};
use sheet::Sheet;
use std::alloc::AllocError;
use std::io::Read;
use terms::{Count, MOST_TERMS, TermRecord};
use writing::{Answer, ConditionsView, RowView, Taking};

/// A sheet's step, with the memory that the calls are lent.
#[derive(Drop)]
struct Step<'a> {
    sheet: &'a Sheet,
    bank: [TermRecord; MOST_TERMS],
    count: Count,
    labels: [u16; MOST_TERMS],
}

impl Step<'_> {
    fn first_row(&mut self) -> Result<RowRecord, TableFault> {
        first_row(self.sheet, &mut self.bank, &mut self.count)
    }

    fn conditions(&mut self, row: &RowRecord, branch: u8) -> Result<Conditions, TableFault> {
        branch_conditions(self.sheet, &mut self.bank, &mut self.count, row, branch)
    }

    fn is_impossible(&mut self, conditions: &Conditions) -> Result<bool, TableFault> {
        let used = front(&conditions.list, conditions.used as usize);
        let verdict = decide(&self.bank, self.count, used, &mut self.labels)?;
        Ok(verdict.impossible)
    }

    // The form of the candidate at the sheet's height bound.
    fn form(&mut self, row: &RowRecord, branch: u8) -> Result<RowRecord, TableFault> {
        let sheet = self.sheet;
        let made = candidate(sheet, &mut self.bank, &mut self.count, row, branch)?;
        form(sheet, &mut self.bank, &mut self.count, &made, sheet.bound)
    }

    fn is_safe(&mut self, made: &RowRecord) -> Result<bool, TableFault> {
        is_safe(
            self.sheet,
            &mut self.bank,
            &mut self.count,
            made,
            &mut self.labels,
        )
    }

    fn takes(&mut self, row: &RowRecord, made: &RowRecord) -> Result<Taking, TableFault> {
        let names = names_of_row(self.sheet, &self.bank, row);
        let renaming = takes(
            self.sheet,
            &mut self.bank,
            &mut self.count,
            row,
            made,
            &mut self.labels,
        )?;
        Ok(Taking { names, renaming })
    }

    fn view(&self, row: RowRecord) -> RowView<'_> {
        RowView {
            sheet: self.sheet,
            bank: &self.bank,
            row,
        }
    }
}

// Text, step and row are lent side by side: the row is what the step's first call answers.
fn write_form(
    text: &mut String,
    step: &mut Step,
    row: &RowRecord,
    branch: u8,
) -> Result<(), AllocError> {
    let made = step.form(row, branch);
    let shown = Answer(made.map(|made| step.view(made)));
    writeln!(text, "branch {branch} form {shown}")?;
    let Ok(made) = made else {
        return Ok(());
    };
    let safe = Answer(
        step.is_safe(&made)
            .map(|safe| if safe { "yes" } else { "no" }),
    );
    writeln!(text, "branch {branch} safe {safe}")?;
    let taken = Answer(step.takes(row, &made));
    writeln!(text, "branch {branch} taken {taken}")
}

fn write_branch(
    text: &mut String,
    step: &mut Step,
    row: &RowRecord,
    branch: u8,
) -> Result<(), AllocError> {
    let asked = step.conditions(row, branch);
    let bank = &step.bank;
    let shown = Answer(asked.map(|conditions| ConditionsView { bank, conditions }));
    writeln!(text, "branch {branch} conditions {shown}")?;
    let Ok(conditions) = asked else {
        return Ok(());
    };
    let impossible = step.is_impossible(&conditions);
    if impossible == Ok(false) {
        return write_form(text, step, row, branch);
    }
    let shown = Answer(impossible.map(|_| "impossible"));
    writeln!(text, "branch {branch} {shown}")
}

// The terms of a branch leave the bank again before the next one.
fn write_branches(text: &mut String, step: &mut Step, row: &RowRecord) -> Result<(), AllocError> {
    let questions = step.sheet.parts.questions.len();
    let branches = 1u8 << questions.min(6);
    let start = step.count;
    for branch in 0..branches {
        write_branch(text, step, row, branch)?;
        step.count = start;
    }
    Ok(())
}

fn write_step(text: &mut String, sheet: &Sheet) -> Result<(), AllocError> {
    // Made here, since a function would hand its memory out by a copy.
    let mut step = Step {
        sheet,
        bank: [TermRecord::BLANK; MOST_TERMS],
        count: Count { terms: 0 },
        labels: [0; MOST_TERMS],
    };
    let row = step.first_row();
    let shown = Answer(row.map(|row| step.view(row)));
    writeln!(text, "row 0 {shown}")?;
    let Ok(row) = row else {
        return Ok(());
    };
    write_branches(text, &mut step, &row)
}

fn run(rt: &HostRuntime) -> anyhow::Result<()> {
    let heap = rt.alloc();
    let mut bytes: Vec<u8> = Vec::new(heap);
    rt.stdin().read_to_end(&mut bytes)?;
    let mut sheet = smallest(heap)?;
    let mut text = String::new(heap);
    // A refusal is printed, so nothing is passed on.
    match read(bytes.as_slice(), heap, &mut sheet) {
        Ok(()) => write_step(&mut text, &sheet)?,
        Err(Failure::Fault(fault)) => writeln!(text, "{fault}")?,
        Err(Failure::Memory) => return Err(anyhow!("no memory is left")),
    }
    rt.print(text.as_str())?;
    Ok(())
}

fn main(rt: HostRuntime) -> anyhow::Result<()> {
    run(&rt)
}

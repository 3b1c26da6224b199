// One line of a sheet.
ghost use Rattle.std.specs.Prelude.{◌≡◌, Ok, Err};
ghost use Rattle.std.specs.Result.{result_err};
ghost use Rattle.sheets.specs.declared.state.Sheet.{Sheet};
ghost use Rattle.sheets.specs.Lines.{Judged, RunsLine, after, answer, form_refusal, next_line};

use super::Sheet;
use refusal::Refusal;
use sheet_print::{Answer, print};
use sheet_text::{Form, read_line};
use std::ops::ControlFlow;

// The most slots, and the most places that a sheet may open a book of.
const SLOTS: u32 = 32;

const PLACES: u32 = 1_024;

impl Sheet {
    // Runs one line, handed over with the byte 10 that ends it, and prints its answer into the output.
    // Answers how many bytes it printed, and breaks where the run ends with this line.
    pub fn run_line(
        &mut self,
        line: &[u8],
        out: &mut [u8],
    ) -> Result<ControlFlow<usize, usize>, Refusal>
        ensures { RunsLine self.old line.now out.old result self.new out.new }
    {
        match self.judge(line) {
            Ok(form) => {
                let n = print(answer_to(form), out)?;
                self.accept(form);
                Ok(ControlFlow::Continue(n))
            }
            Err(e) => {
                let n = print(self.fault(e), out)?;
                Ok(ControlFlow::Break(n))
            }
        }
    }

    // The form that a line asks for, or why it is refused.
    fn judge(&self, line: &[u8]) -> Result<Form, Refusal>
        ensures { Judged self.now line.now result }
    {
        let form = read_line(line)?;
        self.check(form)?;
        Ok(form)
    }

    fn check(&self, form: Form) -> Result<(), Refusal>
        ensures { result_err result ≡ form_refusal self.now form }
    {
        match form {
            Form::Open { slots, places, .. } => {
                if self.opened {
                    Err(Refusal::OpenMisplaced)
                } else if !(1..=SLOTS).contains(&slots) {
                    Err(Refusal::SlotCount)
                } else if !(1..=PLACES).contains(&places) {
                    Err(Refusal::ListLength)
                } else {
                    Ok(())
                }
            }
        }
    }

    fn accept(&mut self, form: Form)
        ensures { self.new ≡ after self.old (Ok form) }
    {
        match form {
            Form::Open { .. } => {
                self.lines = self.next_line();
                self.opened = true;
            }
        }
    }

    fn fault(&self, e: Refusal) -> Answer
        ensures { result ≡ answer self.now (Err e) }
    {
        Answer::Fault {
            line: self.next_line(),
            number: e.number(),
        }
    }

    fn next_line(&self) -> u32
        ensures { result ≡ next_line self.now }
    {
        self.lines.saturating_add(1)
    }
}

// What an accepted form is answered; no run has a say in it. No `From`, since both types are of crates below.
fn answer_to(form: Form) -> Answer
    ensures { (s : Sheet) → result ≡ answer s (Ok form) }
{
    match form {
        Form::Open { slots, .. } => Answer::Opened { slots },
    }
}

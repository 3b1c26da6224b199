// A whole sheet.
ghost use Rattle.std.specs.Prelude.{◌≡◌, IfOk};
ghost use Rattle.sheets.specs.Lines.{fresh};
ghost use Rattle.sheets.specs.Sheets.{size_fault, PrintsLines, PrintsSheet};

use crate::state::Sheet;
use refusal::Refusal;
use sheet_print::{Answer, ROOM, print};
use std::alloc::{AllocError, Global};
use std::ops::ControlFlow;

// The most bytes of a sheet.
pub const LONGEST: usize = 65_536;

// The byte that ends a line.
const NEWLINE: u8 = b'\n';

// All that the sheet prints.
pub fn run_sheet(heap: Global, sheet: &[u8]) -> Result<Vec<u8>, AllocError>
    ensures { IfOk result (λ v. PrintsSheet sheet.now v.items) }
{
    if sheet.is_empty() || sheet.len() > LONGEST {
        refuse_size(heap)
    } else {
        run_lines(heap, sheet)
    }
}

fn refuse_size(heap: Global) -> Result<Vec<u8>, AllocError>
    ensures { IfOk result (λ v. v.items ≡ size_fault) }
{
    let fault = Answer::Fault {
        line: 0,
        number: Refusal::SheetSize.number(),
    };
    let mut buffer = [0u8; ROOM];
    let Ok(n) = print(fault, &mut buffer) else {
        unreachable!()
    };
    Vec::from_slice(heap, &buffer[..n])
}

fn run_lines(heap: Global, sheet: &[u8]) -> Result<Vec<u8>, AllocError>
    ensures { IfOk result (λ v. PrintsLines fresh sheet.now v.items) }
{
    let mut out = Vec::new(heap);
    let mut buffer = [0u8; ROOM];
    let mut run = Sheet::new();
    for line in sheet.split_inclusive(|b| *b == NEWLINE) {
        let Ok(outcome) = run.run_line(line, &mut buffer) else {
            unreachable!()
        };
        match outcome {
            ControlFlow::Continue(n) => out.extend_from_slice(&buffer[..n])?,
            ControlFlow::Break(n) => {
                out.extend_from_slice(&buffer[..n])?;
                return Ok(out);
            }
        }
    }
    Ok(out)
}

// Answers that cross to another language with 64-bit numbers or a float: how many, how a run ended, a cell, spans, a fraction; as `boundary` says.
#![tactic(auto)]

ghost use Rattle.rules.specs.Promises.{before, after};
ghost use Rattle.boundary.specs.Boundary.{value_stored, dead_end_stored, spans_stored, run_stored, Tells};

use boundary::written;
use boundary_slots::put;
use rules::{Cell, RanOut, Refusal, Spans};

pub fn scanned(answer: Result<Option<Cell>, Refusal>, out: &mut [u64]) -> u32
    ensures { Tells dead_end_stored answer (before out) result (after out) }
{
    match answer {
        Ok(Some(Cell(row, col))) => {
            put(out, 0, 1);
            put(out, 1, row as u64);
            put(out, 2, col as u64);
        }
        Ok(None) => put(out, 0, 0),
        Err(_) => {}
    }
    written(answer)
}

pub fn counted(answer: Result<usize, Refusal>, out: &mut [u64]) -> u32
    ensures { Tells value_stored answer (before out) result (after out) }
{
    if let Ok(count) = answer {
        put(out, 0, count as u64);
    }
    written(answer)
}

pub fn divided(answer: Result<f64, Refusal>, out: &mut [f64]) -> u32
    ensures { Tells value_stored answer (before out) result (after out) }
{
    if let Ok(fraction) = answer {
        put(out, 0, fraction);
    }
    written(answer)
}

pub fn spanned(answer: Result<Spans, Refusal>, out: &mut [u64]) -> u32
    ensures { Tells spans_stored answer (before out) result (after out) }
{
    if let Ok(Spans { rows, cols }) = answer {
        put(out, 0, rows.0 as u64);
        put(out, 1, rows.1 as u64);
        put(out, 2, cols.0 as u64);
        put(out, 3, cols.1 as u64);
    }
    written(answer)
}

pub fn ran(answer: Result<RanOut, Refusal>, out: &mut [u64]) -> u32
    ensures { Tells run_stored answer (before out) result (after out) }
{
    if let Ok(run) = answer {
        put(out, 0, run.end as u64);
        put(out, 1, run.taken as u64);
        put(out, 2, run.laid as u64);
    }
    written(answer)
}

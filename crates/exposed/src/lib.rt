// Forgotten readers: which places of the machine a list of calls takes for granted. A place, one byte of a register or one flag, is
// exposed if some call reads it and no earlier call has rewritten it. Below is `effects`, which has what each call reads and rewrites and
// the theorem on forgotten readers; this crate reports the exposed places of up to 64 calls, and proves the report to be the list that
// the theorem speaks of. Above are promises, which states demand 3, `wire_session`, and the programs that ask for a report.
// It carries the report, RULES 8.5, with refusal 12, of what 8.4 defines.
#![tactic(auto)]

ghost use Rattle.std.specs.Prelude.{◌≡◌, ◌+◌, ◌≤◌, length};
ghost use Rattle.effects.specs.Rows.{span, in_span, in_spans, Inside};
ghost use Rattle.exposed.specs.Reported.{verdict_outcome, report_answer, reported, Marked};

use calls::Call;
use effects::{Span, Spans};

// The most calls of one report (RULES 8.5).
const MOST: usize = 64;

// Refusal 12: more calls than that.
#[derive(Clone, Copy, Debug, PartialEq, Eq)]
pub struct TooManyCalls;

impl TooManyCalls {
    // The refusal's number.
    pub fn number(self) -> u64
        ensures { result ≡ (verdict_outcome (Err self)).number }
    {
        12
    }
}

// Of each of the 182 places, in their order, whether it is exposed; all no where the list is refused. They stand beside the verdict, and
// not in its `Ok`, for of a refused list too `report_refused` says every place (RULES 8.5).
#[derive(Clone, Copy)]
pub struct Report {
    pub verdict: Result<(), TooManyCalls>,
    pub places: [bool; 182],
}

// Says yes or no at so many places from start on, and leaves the others.
fn mark_from(on: &mut [bool; 182], start: usize, count: usize, value: bool)
    requires { start + count ≤ 182 }
    ensures { Marked on.old on.new (in_span (span start count)) value }
{
    for p in start..start + count {
        on[p] = value;
    }
}

// Most spans are one flag or one whole register: three arms alike, for where the count is known the loop is compiled to one store
// (docs/SPEED.md, "The exposed report").
fn mark(on: &mut [bool; 182], span: Span, value: bool)
    requires { span.start + span.count ≤ 182 }
    ensures { Marked on.old on.new (in_span span) value }
{
    let count = span.count;
    match count {
        1 => mark_from(on, span.start, 1, value),
        8 => mark_from(on, span.start, 8, value),
        _ => mark_from(on, span.start, count, value),
    }
}

fn mark_all(on: &mut [bool; 182], spans: Spans, value: bool)
    requires { Inside spans }
    ensures { Marked on.old on.new (in_spans spans) value }
{
    mark(on, spans.one, value);
    mark(on, spans.two, value);
    mark(on, spans.three, value);
    mark(on, spans.four, value);
}

// The exposed places of the first count calls, whatever stands behind them, or of all where fewer stand there (RULES 8.5): with
// `calls.len()`, of the whole list. The count stands beside the list because it may be any number, above 64 too. Refuses 12. No event.
// From the last call to the first: what a call rewrites is no longer exposed, and then what it reads is.
pub fn exposed_places(calls: &[Call], count: usize) -> Report
    ensures { report_answer result ≡ reported calls.now count }
{
    if MOST < count {
        return Report {
            verdict: Err(TooManyCalls),
            places: [false; 182],
        };
    }
    let listed = &calls[..count.min(calls.len())];
    let mut on = [false; 182];
    for call in listed.iter().rev() {
        let rewrites = effects::rewrites_of(*call);
        let reads = effects::reads_of(*call);
        mark_all(&mut on, rewrites, false);
        mark_all(&mut on, reads, true);
    }
    Report {
        verdict: Ok(()),
        places: on,
    }
}

// Independent neighbours: whether two neighbouring calls may be exchanged. They are dependent if some place is rewritten by one and read
// or rewritten by the other, or if both reach memory; this crate tests it, and proves that any other two give the same answers and leave
// the same machine and store in either order, wherever in a list they stand. Below is `effects`, which has what each call reads and
// rewrites, and whether it reaches memory. Above are promises, which states the theorem, and the programs that ask.
// It carries RULES 8.6 (No. 7).
#![tactic(auto)]

ghost use Rattle.std.specs.Prelude.{◌≡◌, ◌+◌, ◌≤◌};
ghost use Rattle.effects.specs.Rows.{in_span, in_spans, Inside};
ghost use Rattle.neighbours.specs.Dependent.{common, dependent};

use calls::Call;
use effects::{Span, Spans};

// Whether some place stands in both spans: then the later start lies before the earlier end.
fn spans_meet(a: Span, b: Span) -> bool
    requires { (a.start + a.count ≤ 182) × (b.start + b.count ≤ 182) }
    ensures { result ≡ common (in_span a) (in_span b) }
{
    let start = a.start.max(b.start);
    let end = (a.start + a.count).min(b.start + b.count);
    start < end
}

// Whether some place of the span stands in the row. Most spans of most rows are empty.
fn span_meets_row(span: Span, row: Spans) -> bool
    requires { (span.start + span.count ≤ 182) × Inside row }
    ensures { result ≡ common (in_span span) (in_spans row) }
{
    if span.count == 0 {
        return false;
    }
    spans_meet(span, row.one)
        | spans_meet(span, row.two)
        | spans_meet(span, row.three)
        | spans_meet(span, row.four)
}

fn rows_meet(row: Spans, other: Spans) -> bool
    requires { Inside row × Inside other }
    ensures { result ≡ common (in_spans row) (in_spans other) }
{
    span_meets_row(row.one, other)
        | span_meets_row(row.two, other)
        | span_meets_row(row.three, other)
        | span_meets_row(row.four, other)
}

// Whether a place is rewritten by one call and read or rewritten by the other, or both reach memory (RULES 8.6). If not, they may
// be exchanged.
pub fn depends(a: Call, b: Call) -> bool
    ensures { result ≡ dependent a b }
{
    if effects::reaches_memory(a) & effects::reaches_memory(b) {
        return true;
    }
    let reads = effects::reads_of(a);
    let rewrites = effects::rewrites_of(a);
    let other_reads = effects::reads_of(b);
    let other_rewrites = effects::rewrites_of(b);
    rows_meet(rewrites, other_reads)
        | rows_meet(rewrites, other_rewrites)
        | rows_meet(other_rewrites, reads)
}

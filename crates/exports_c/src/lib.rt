#![tactic(auto)]
// The functions of `exports` under their C names: the static library that the comparison links. A
// crate is a library or a static library and not both, and `replay` calls the library's; two of
// them, which it does not call, stand with the others.
ghost use Rattle.std.specs.Prelude.{◌≡◌, ◌+◌, ◌/◌, ◌≤◌, length, drop};
ghost use Rattle.attr.specs.Attributes.{fed};
ghost use Rattle.lex.specs.Lexer.{fresh_of, peek_of, next_of};
ghost use Rattle.scan.specs.Scans.{autolink_of, symbol_of, footnote_of, raw_format_of};
ghost use Rattle.dash.specs.Dashes.{dashes_of, dots_of};
ghost use Rattle.reading.specs.Events.{event_numbers};
ghost use Rattle.reading.specs.Questions.{total, outcome};
ghost use Rattle.reading.specs.Walked.{Accepted, AcceptedHomes};
ghost use Rattle.inline.specs.Lines.{lines_of};
ghost use Rattle.outcome.specs.Outcomes.{rooms_of, outcome_of};
ghost use Rattle.exports.specs.Numbers.{cursor_of, state_of, step_of, scanned_of, validator_number, validator_state, dash_counts, dot_counts};

use exports::{Counts, CursorNumbers, Scanned, Step};
use reading::Answer;

#[unsafe(no_mangle)]
pub extern "C" fn mivurakol_cursor(pos: usize, verbatim: bool) -> CursorNumbers
    ensures { result ≡ state_of (fresh_of pos verbatim) }
{
    exports::mivurakol_cursor(pos, verbatim)
}

#[unsafe(no_mangle)]
pub extern "C" fn mivurakol_peek(src: &[u8], s: CursorNumbers) -> Step
    ensures { result ≡ step_of (peek_of src.now (cursor_of s)) }
{
    exports::mivurakol_peek(src, s)
}

#[unsafe(no_mangle)]
pub extern "C" fn mivurakol_next(src: &[u8], s: CursorNumbers) -> Step
    ensures { result ≡ step_of (next_of src.now (cursor_of s)) }
{
    exports::mivurakol_next(src, s)
}

#[unsafe(no_mangle)]
pub extern "C" fn mivurakol_autolink(src: &[u8], from: usize) -> Scanned
    ensures { result ≡ scanned_of (autolink_of (drop from src.now)) }
{
    exports::mivurakol_autolink(src, from)
}

#[unsafe(no_mangle)]
pub extern "C" fn mivurakol_symbol(src: &[u8], from: usize) -> Scanned
    ensures { result ≡ scanned_of (symbol_of (drop from src.now)) }
{
    exports::mivurakol_symbol(src, from)
}

#[unsafe(no_mangle)]
pub extern "C" fn mivurakol_footnote(src: &[u8], from: usize) -> Scanned
    ensures { result ≡ scanned_of (footnote_of (drop from src.now)) }
{
    exports::mivurakol_footnote(src, from)
}

#[unsafe(no_mangle)]
pub extern "C" fn mivurakol_raw_format(src: &[u8], from: usize) -> Scanned
    ensures { result ≡ scanned_of (raw_format_of (drop from src.now)) }
{
    exports::mivurakol_raw_format(src, from)
}

// The attribute validator, from a state on.
#[unsafe(no_mangle)]
pub extern "C" fn mivurakol_validate(bytes: &[u8], state: u32) -> u32
    ensures { result ≡ validator_number (fed bytes.now (validator_state state)) }
{
    exports::mivurakol_validate(bytes, state)
}

#[unsafe(no_mangle)]
pub extern "C" fn mivurakol_hyphens(len: usize) -> Counts
    ensures { result ≡ dash_counts (dashes_of len) }
{
    exports::mivurakol_hyphens(len)
}

#[unsafe(no_mangle)]
pub extern "C" fn mivurakol_periods(len: usize) -> Counts
    ensures { result ≡ dot_counts (dots_of len) }
{
    exports::mivurakol_periods(len)
}

// `reader::read`.
#[unsafe(no_mangle)]
pub extern "C" fn mivurakol_read_numbers(
    text: &[u8],
    starts: &[usize],
    ends: &[usize],
    reading: u32,
    events: &mut [u32],
    queue: &mut [u32],
    openers: &mut [u32],
    labels: &mut [u8],
) -> Answer
    ensures as_defined { outcome_of result events.new queue.new openers.new labels.new ≡ outcome text.now
        (lines_of starts.now ends.now) reading (rooms_of events.old queue.old openers.old labels.old) }
    ensures accepted { result.code ≡ 0 → Accepted text.now (lines_of starts.now ends.now) reading (rooms_of events.old queue.old openers.old labels.old) (outcome_of result events.new queue.new openers.new labels.new) }
    ensures homed { result.code ≡ 0 → AcceptedHomes text.now (lines_of starts.now ends.now) reading (rooms_of events.old queue.old openers.old labels.old) (outcome_of result events.new queue.new openers.new labels.new) }
    ensures events_suffice { total (lines_of starts.now ends.now) + 1 ≤ length events.old / event_numbers → result.code ≡ 9 → ⊥ }
{
    exports::mivurakol_read_numbers(text, starts, ends, reading, events, queue, openers, labels)
}

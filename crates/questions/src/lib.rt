#![tactic(auto)]
// The questions asked of a sheet before it is read, 1 to 6: the reading, the limits, the lines in
// one walk, the rooms.
ghost use Rattle.std.specs.Prelude.{◌≡◌, ◌+◌, ◌^◌, ◌≤◌, ◌<◌, length, IfOk};
ghost use Rattle.reading.specs.Events.{largest};
ghost use Rattle.questions.specs.Asking.{limit, checked_lines, roomy, asked_of, line_of};

use reading::{LARGEST, Line, OPENER_NUMBERS, QUEUE_NUMBERS, Refusal};
use sheets::Lines;

// Behind some lines: the end of the last, their bytes, and the first early one.
#[derive(Clone, Copy)]
struct LineWalk {
    end: usize,
    total: usize,
    early: Option<u32>,
}

// Questions 3 and 4 of the i-th line, behind the lines before it.
fn walk_line(w: LineWalk, i: usize, l: Line, text: usize) -> Result<LineWalk, Refusal>
    requires total_bound { w.total + text < 2 ^ 64 }
    requires index_bound { i < 2 ^ 32 }
    ensures { result ≡ line_of text w i l }
{
    if l.end < l.start || text < l.end {
        return Err(Refusal::Outside(i as u32));
    }
    Ok(LineWalk {
        end: l.end,
        total: w.total + (l.end - l.start),
        early: w.early.or((l.start < w.end).then_some(i as u32)),
    })
}

// 3: has every line start ≤ end ≤ text length? 4: does each line start at or after the end of the
// one before? Then the bytes of all lines.
fn check_lines<L: Lines>(text: &[u8], lines: L) -> Result<usize, Refusal>
    requires text_len_bound { length text.now ≤ largest }
    requires lines_len_bound { length (L.listed lines) ≤ largest }
    ensures value { result ≡ checked_lines text.now (L.listed lines) }
    ensures small { IfOk result (λ n. n ≤ 2 ^ 40) }
{
    let mut w = LineWalk {
        end: 0,
        total: 0,
        early: None,
    };
    for i in 0..lines.count() {
        w = walk_line(w, i, lines.line(i), text.len())?;
    }
    match w.early {
        Some(i) => Err(Refusal::Early(i)),
        None => Ok(w.total),
    }
}

// 1: is the reading 0 or 1? 2: is the text at most 1,048,576 bytes, and the line list at most
// 1,048,576 records?
fn limits(reading: u32, text: usize, lines: usize) -> Result<(), Refusal>
    ensures { result ≡ limit reading text lines }
{
    if 1 < reading {
        return Err(Refusal::Reading);
    }
    if LARGEST < text || LARGEST < lines {
        return Err(Refusal::TooLarge);
    }
    Ok(())
}

// 5: has the queue room at least 2N + 1 records? 6: has the opener room at least N records?
fn ask_rooms(n: usize, queue: usize, openers: usize) -> Result<(), Refusal>
    requires { n ≤ 2 ^ 40 }
    ensures { result ≡ roomy n queue openers }
{
    if queue / QUEUE_NUMBERS < 2 * n + 1 {
        return Err(Refusal::QueueRoom);
    }
    if openers / OPENER_NUMBERS < n {
        return Err(Refusal::OpenerRoom);
    }
    Ok(())
}

// Questions 1 to 6, in their order.
pub fn questions<L: Lines>(
    text: &[u8],
    lines: L,
    reading: u32,
    queue: usize,
    openers: usize,
) -> Result<(), Refusal>
    ensures { result ≡ asked_of text.now (L.listed lines) reading queue openers }
{
    limits(reading, text.len(), lines.count())?;
    let n = check_lines(text, lines)?;
    ask_rooms(n, queue, openers)
}

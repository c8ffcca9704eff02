#![tactic(auto)]
// A token outside verbatim, in the order of the source's `parse_event`: backticks, a brace, the
// scans ahead, containers, dots and dashes. Only what may end a link touches the label room; all
// else leaves it, whatever sheet the token is of.
ghost use Rattle.std.specs.Prelude.{drop};
ghost use Rattle.scan.specs.Scans.{footnote_of};
ghost use Rattle.reading.specs.Machine.{Rules, Sheet};
ghost use Rattle.reading.specs.Looks.{unless_taken, look};
ghost use Rattle.reading.specs.Events.{str};
ghost use Rattle.reading.specs.Tokens.{plain, bracket};
ghost use Rattle.reading.specs.Reading as spec;
ghost use Rattle.rooms.specs.Standing.{viewed, here};
ghost use Rattle.rooms.specs.Steps.{Stepped, Changed, Queued};
ghost use Rattle.links.specs.Linked.{sheet_of};
ghost use Rattle.containers.specs.Ready.{Ready, LabelRoom, Countable, container_looking};
ghost use Rattle.outside.specs.Outside.{Ended, TokenReady};

use reading::{LONGEST_RUN, Role, Sort, kind};
use rooms::{Parser, Span, View};

// A token that is Str. `TokenReady` and `Ready` are of a token and the line behind it: what is put
// spends their room, so that they are no invariant of the parser.
fn alone(p: &mut Parser, v: &View, h: Span)
    requires { TokenReady (viewed v.now) h p.old }
    ensures { (x : Sheet) → Queued p.old p.new (container_looking x (viewed v.now) (here h p.old.at) (plain str)) }
{
    p.at.looks += p.at.openers as u64;
    atoms::put(p, v, kind::STR, h);
}

// A token that opens a span.
fn opens(p: &mut Parser, v: &View, h: Span)
    requires ready { Ready (viewed v.now) h p.old }
    requires countable { Countable p.old }
    ensures { (x : Sheet) → Changed p.old p.new (container_looking x (viewed v.now) (here h p.old.at) bracket) }
{
    p.at.looks += p.at.openers as u64;
    containers::open_as(p, v, h, Sort::Span);
}

// `<`: an autolink if the scan accepts. This and the two below are two arms each, and of scan,
// event and what comes without one at least two differ: one function would take them as parameters.
#[tactic(auto, unfolding(reading::specs::Reading::outside, reading::specs::Reading::angle, reading::specs::Looks::seeks_by, reading::specs::Looks::unless_taken, reading::specs::Looks::looked))]
fn parse_autolink(p: &mut Parser, v: &View, h: Span)
    requires { TokenReady (viewed v.now) h p.old }
    ensures { (x : Sheet) → Queued p.old p.new (spec.outside_looking x (viewed v.now) (here h p.old.at) Role.Lt) }
{
    match scan::ahead_autolink(v.bytes, h.to) {
        Some(n) => atoms::autolinked(p, v, h, n),
        None => alone(p, v, h),
    }
}

// `:`: a symbol if the scan accepts.
#[tactic(auto, unfolding(reading::specs::Reading::outside, reading::specs::Reading::colon))]
fn parse_symbol(p: &mut Parser, v: &View, h: Span)
    requires { TokenReady (viewed v.now) h p.old }
    ensures { (x : Sheet) → Queued p.old p.new (spec.outside_looking x (viewed v.now) (here h p.old.at) Role.Colon) }
{
    match scan::ahead_symbol(v.bytes, h.to) {
        Some(n) => atoms::named(p, v, h, kind::SYMBOL, n),
        None => alone(p, v, h),
    }
}

// `[^`: a footnote reference if the scan accepts; otherwise one opener of two bytes.
#[tactic(auto, unfolding(reading::specs::Reading::noted))]
fn noted(p: &mut Parser, v: &View, h: Span)
    requires ready { Ready (viewed v.now) h p.old }
    requires countable { Countable p.old }
    ensures { (x : Sheet) → Changed p.old p.new (λ s. let f = footnote_of (drop h.to v.now.bytes.now) in spec.noted x (viewed v.now) (here h p.old.at) f (look (unless_taken f) s)) }
{
    match scan::ahead_footnote(v.bytes, h.to) {
        Some(n) => atoms::named(p, v, h, kind::FOOTNOTE_REFERENCE, n),
        None => opens(p, v, h),
    }
}

// `[`: the next token is peeked at; with `^` behind it, and not `^}`, the two are one token.
#[tactic(auto, unfolding(reading::specs::Reading::outside, reading::specs::Reading::bracketed))]
fn parse_footnote_reference(p: &mut Parser, v: &View, h: Span)
    requires ready { Ready (viewed v.now) h p.old }
    requires countable { Countable p.old }
    ensures { (x : Sheet) → Changed p.old p.new (spec.outside_looking x (viewed v.now) (here h p.old.at) Role.Bracket) }
{
    let ahead = lexer::peek_token(v.bytes, p.at.cursor);
    p.at.cursor = ahead.cursor;
    let Some(t) = ahead.token else {
        opens(p, v, h);
        return;
    };
    if tables::is_caret(tables::role_of(t.kind)) {
        p.at.cursor = ahead.cursor.skip(v.bytes);
        let both = Span {
            from: h.from,
            to: h.to + t.len,
        };
        noted(p, v, both);
        return;
    }
    opens(p, v, h);
}

// A run of more than 255 backticks opens nothing.
#[tactic(auto, unfolding(reading::specs::Reading::outside))]
fn backticks(p: &mut Parser, v: &View, h: Span)
    requires token_ready { TokenReady (viewed v.now) h p.old }
    requires ended { Ended p.old }
    ensures { (x : Sheet) → Queued p.old p.new (spec.outside_looking x (viewed v.now) (here h p.old.at) Role.Backticks) }
{
    if h.to - h.from <= LONGEST_RUN {
        verbatim::opens_verbatim(p, v, h);
        return;
    }
    alone(p, v, h);
}

// Two hyphens and more are dashes.
#[tactic(auto, unfolding(reading::specs::Reading::outside))]
fn hyphens(p: &mut Parser, v: &View, h: Span)
    requires { TokenReady (viewed v.now) h p.old }
    ensures { (x : Sheet) → Queued p.old p.new (spec.outside_looking x (viewed v.now) (here h p.old.at) Role.Hyphens) }
{
    if h.to - h.from < 2 {
        alone(p, v, h);
        return;
    }
    p.at.looks += p.at.openers as u64;
    atoms::dashes(p, v, h);
}

// A token outside verbatim. The roles are the definition's, and each arm has parameters of its own.
#[tactic(auto, unfolding(reading::specs::Reading::outside, reading::specs::Reading::braced))]
pub fn outside(p: &mut Parser, text: &[u8], v: &View, h: Span, role: Role)
    requires ready { Ready (viewed v.now) h p.old }
    requires label_room { LabelRoom p.old }
    requires countable { Countable p.old }
    requires ended { Ended p.old }
    ensures { (rules : Rules) → Stepped p.old p.new (spec.outside_looking (sheet_of rules text.now p.old.labels.now) (viewed v.now) (here h p.old.at) role) }
{
    match role {
        Role::Backticks => backticks(p, v, h),
        Role::Brace => {
            p.at.looks += p.at.openers as u64;
            p.at.refused = Some(v.place(h.from));
        }
        Role::Lt => parse_autolink(p, v, h),
        Role::Colon => parse_symbol(p, v, h),
        Role::Bracket => parse_footnote_reference(p, v, h),
        Role::Paren => alone(p, v, h),
        Role::Periods => {
            p.at.looks += p.at.openers as u64;
            atoms::dots(p, v, h);
        }
        Role::Hyphens => hyphens(p, v, h),
        Role::Other(k) => containers::parse_container(p, text, v, h, k),
    }
}

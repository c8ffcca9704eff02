#![tactic(auto)]
// What a container's enter and exit write, and an atom: the bytes that are the same in every sheet.
// Enter and exit are of the same containers: by one table of pairs for both, case (e) of bench/run
// takes 0.51 of the Rust's time and misses its bar, which it meets so with 0.49. An atom's numbers
// are kinds and no containers, and so are a table of their own.
ghost use Rattle.output.specs.Written.{Adds};
ghost use Rattle.markup.specs.Markup.{opening, closing, find, atom};

use output::Output;
use reading::{container, kind};

// What a container's enter writes.
#[tactic(auto, unfolding(markup::specs::Markup::find, markup::specs::Markup::opening, classes::specs::Classes::bytes))]
pub fn put_opening(out: &mut Output, k: u32) -> Option<()>
    ensures { Adds out.old (find k opening) result out.new }
{
    match k {
        container::STRONG => out.put(b"<strong>"),
        container::EMPHASIS => out.put(b"<em>"),
        container::VERBATIM => out.put(b"<code>"),
        container::SUBSCRIPT => out.put(b"<sub>"),
        container::SUPERSCRIPT => out.put(b"<sup>"),
        container::INSERT => out.put(b"<ins>"),
        container::DELETE => out.put(b"<del>"),
        container::MARK => out.put(b"<mark>"),
        container::INLINE_MATH => out.put(b"<span class=\"math inline\">\\("),
        container::DISPLAY_MATH => out.put(b"<span class=\"math display\">\\["),
        _ => Some(()),
    }
}

// And its exit.
#[tactic(auto, unfolding(markup::specs::Markup::find, markup::specs::Markup::closing, classes::specs::Classes::bytes))]
pub fn put_closing(out: &mut Output, k: u32) -> Option<()>
    ensures { Adds out.old (find k closing) result out.new }
{
    match k {
        container::STRONG => out.put(b"</strong>"),
        container::EMPHASIS => out.put(b"</em>"),
        container::VERBATIM => out.put(b"</code>"),
        container::SUBSCRIPT => out.put(b"</sub>"),
        container::SUPERSCRIPT => out.put(b"</sup>"),
        container::INSERT => out.put(b"</ins>"),
        container::DELETE => out.put(b"</del>"),
        container::MARK => out.put(b"</mark>"),
        container::INLINE_MATH => out.put(b"\\)</span>"),
        container::DISPLAY_MATH => out.put(b"\\]</span>"),
        _ => Some(()),
    }
}

// What an atom writes that is neither a Str nor a symbol, in UTF-8.
#[tactic(auto, unfolding(markup::specs::Markup::find, markup::specs::Markup::breaking, markup::specs::Markup::atoms, markup::specs::Markup::escaped, markup::specs::Markup::escape_by, markup::specs::Markup::entities, classes::specs::Classes::bytes))]
pub fn put_atom(out: &mut Output, k: u32) -> Option<()>
    ensures { Adds out.old (atom k) result out.new }
{
    match k {
        kind::SOFTBREAK => out.put(b"\n"),
        kind::HARDBREAK => out.put(b"<br>\n"),
        kind::NBSP => out.put(b"\xc2\xa0"),
        kind::ELLIPSIS => out.put(b"\xe2\x80\xa6"),
        kind::EN_DASH => out.put(b"\xe2\x80\x93"),
        kind::EM_DASH => out.put(b"\xe2\x80\x94"),
        kind::LEFT_SINGLE_QUOTE => out.put(b"\xe2\x80\x98"),
        kind::RIGHT_SINGLE_QUOTE => out.put(b"\xe2\x80\x99"),
        kind::LEFT_DOUBLE_QUOTE => out.put(b"\xe2\x80\x9c"),
        kind::RIGHT_DOUBLE_QUOTE => out.put(b"\xe2\x80\x9d"),
        _ => Some(()),
    }
}

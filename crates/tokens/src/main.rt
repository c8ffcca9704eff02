#![tactic(auto)]
// Prints the tokens of the first line of standard input: start, end and kind of each. At most 1,000
// bytes are read.
ghost use Rattle.std.specs.Prelude.{◌≤◌, length};

use input::BYTES;
use lex::{Cursor, Kind};
use std::io::Write;
use std::{fmt, io};

// A kind, and what it is of.
#[derive(Clone, Copy)]
struct Named(Kind);

impl fmt::Display for Named {
    fn fmt<W: fmt::Write>(&self, f: &mut fmt::Formatter<W>) -> fmt::Result {
        match self.0 {
            Kind::Open(d) => write!(f, "Open {d:?}"),
            Kind::Close(d) => write!(f, "Close {d:?}"),
            Kind::Sym(s) => write!(f, "Sym {s:?}"),
            Kind::Seq(s) => write!(f, "Seq {s:?}"),
            kind => write!(f, "{kind:?}"),
        }
    }
}

// The first line, its newline included.
fn first_line(text: &[u8]) -> &[u8]
    ensures { length result.now ≤ length text.now }
{
    text.split_inclusive(|b| *b == b'\n').next().unwrap_or(text)
}

// A token is at least one byte, so there are at most as many as bytes: the loop ends without a law
// on the cursor.
fn write_tokens<W: Write>(to: &mut W, line: &[u8]) -> io::Result<()> {
    let mut c = Cursor::new(0, false);
    for _ in 0..line.len() {
        let start = c.pos;
        let r = lexer::next_token(line, c);
        let Some(t) = r.token else {
            break;
        };
        c = r.cursor;
        writeln!(to, "{start} {} {}", c.pos, Named(t.kind))?;
    }
    Ok(())
}

fn main(rt: HostRuntime) -> io::Result<()> {
    let mut text = [0u8; BYTES];
    let n = input::read_full(&mut rt.reader(), &mut text)?;
    write_tokens(&mut io::writer(&rt), first_line(&text[..n]))
}

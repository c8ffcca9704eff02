#![tactic(auto)]
// The lookup of a label: the bytes of an event's home, from the text or from the label room.
ghost use Rattle.std.specs.Prelude.{◌≡◌, length};
ghost use Rattle.lookup.specs.Lookup.{number_of, source_in, label_of, stands_in};

use reading::{IN_LABELS, IN_TEXT, Place};

// What the bytes of a home are a part of.
#[derive(Clone, Copy)]
pub enum Source {
    Text,
    Labels,
}

// The number of the home.
impl From<Source> for u32 {
    ghost from_gives = { λ s n. n ≡ number_of s };

    fn from(s: Source) -> u32 {
        match s {
            Source::Text => IN_TEXT,
            Source::Labels => IN_LABELS,
        }
    }
}

// Where a range lies, in a text and a label room of so many bytes; none for an impossible home or
// range.
pub fn source_of(text: usize, labels: usize, home: u32, start: usize, end: usize) -> Option<Source>
    ensures { result ≡ source_in text labels home start end }
{
    let (source, n) = match home {
        IN_TEXT => (Source::Text, text),
        IN_LABELS => (Source::Labels, labels),
        _ => return None,
    };
    ((start <= end) & (end <= n)).then_some(source)
}

// The bytes of an event's home: a part of the text or of the label room. An impossible home or
// range gives an empty part of the text. It takes home, start and end as the record of an event has
// them.
pub fn label<'a>(text: &'a [u8], labels: &'a [u8], home: u32, start: Place, end: Place) -> &'a [u8]
    ensures result_value { result.now ≡ label_of text.now labels.now home start.0 end.0 }
    ensures ref_ptr_value { result.ref_ptr ≡ stands_in (source_in (length text.now) (length labels.now) home start.0 end.0) text.entry.ref_ptr
        labels.entry.ref_ptr start.0 }
{
    let from = start.0 as usize;
    let to = end.0 as usize;
    match source_of(text.len(), labels.len(), home, from, to) {
        Some(Source::Text) => &text[from..to],
        Some(Source::Labels) => &labels[from..to],
        None => &text[..0],
    }
}

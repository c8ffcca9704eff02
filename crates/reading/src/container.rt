// The containers, in the order of the source's `Container`. Span, 0, is never handed out. They are
// numbers, as the kinds are, which are made of them by a sum: see `kind`.
pub const SUBSCRIPT: u32 = 1;

pub const SUPERSCRIPT: u32 = 2;

pub const INSERT: u32 = 3;

pub const DELETE: u32 = 4;

pub const EMPHASIS: u32 = 5;

pub const STRONG: u32 = 6;

pub const MARK: u32 = 7;

pub const VERBATIM: u32 = 8;

pub const RAW_FORMAT: u32 = 9;

pub const INLINE_MATH: u32 = 10;

pub const DISPLAY_MATH: u32 = 11;

pub const REFERENCE_LINK: u32 = 12;

pub const REFERENCE_IMAGE: u32 = 13;

pub const INLINE_LINK: u32 = 14;

pub const INLINE_IMAGE: u32 = 15;

pub const AUTOLINK: u32 = 16;

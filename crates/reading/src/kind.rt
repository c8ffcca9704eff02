// The kinds of events. Container k is entered by the kind ENTER + k, and left by EXIT + k; smaller
// kinds do neither. They are numbers, for the C interface: a record that is lent or handed out
// holds any number as its kind, the rules are of all numbers (what is ENTER and more opens or
// closes), and so are the functions that take a kind. An enum would be a second name for each,
// converted at every such call.
use crate::container;

pub const STR: u32 = 1;

pub const SOFTBREAK: u32 = 2;

pub const HARDBREAK: u32 = 3;

pub const ESCAPE: u32 = 4;

pub const NBSP: u32 = 5;

pub const ELLIPSIS: u32 = 6;

pub const EN_DASH: u32 = 7;

pub const EM_DASH: u32 = 8;

pub const LEFT_SINGLE_QUOTE: u32 = 9;

pub const RIGHT_SINGLE_QUOTE: u32 = 10;

pub const LEFT_DOUBLE_QUOTE: u32 = 11;

pub const RIGHT_DOUBLE_QUOTE: u32 = 12;

pub const SYMBOL: u32 = 13;

pub const FOOTNOTE_REFERENCE: u32 = 14;

pub const ENTER: u32 = 32;

pub const EXIT: u32 = 64;

pub const ENTER_SUBSCRIPT: u32 = ENTER + container::SUBSCRIPT;

pub const EXIT_SUBSCRIPT: u32 = EXIT + container::SUBSCRIPT;

pub const ENTER_SUPERSCRIPT: u32 = ENTER + container::SUPERSCRIPT;

pub const EXIT_SUPERSCRIPT: u32 = EXIT + container::SUPERSCRIPT;

pub const ENTER_INSERT: u32 = ENTER + container::INSERT;

pub const EXIT_INSERT: u32 = EXIT + container::INSERT;

pub const ENTER_DELETE: u32 = ENTER + container::DELETE;

pub const EXIT_DELETE: u32 = EXIT + container::DELETE;

pub const ENTER_EMPHASIS: u32 = ENTER + container::EMPHASIS;

pub const EXIT_EMPHASIS: u32 = EXIT + container::EMPHASIS;

pub const ENTER_STRONG: u32 = ENTER + container::STRONG;

pub const EXIT_STRONG: u32 = EXIT + container::STRONG;

pub const ENTER_MARK: u32 = ENTER + container::MARK;

pub const EXIT_MARK: u32 = EXIT + container::MARK;

pub const ENTER_RAW_FORMAT: u32 = ENTER + container::RAW_FORMAT;

pub const ENTER_AUTOLINK: u32 = ENTER + container::AUTOLINK;

pub const EXIT_AUTOLINK: u32 = EXIT + container::AUTOLINK;

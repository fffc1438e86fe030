/// How a text differs from that of a journal, where it first does. Lines are counted from 1.
#[derive(Clone, Copy, Debug, PartialEq, Eq)]
pub enum JournalFault {
    /// The lines before this one are those of the journal. This one is another, or the journal has no such line. What comes after
    /// the last line feed is a line, too.
    Line(u32),
    /// The text has this many lines, all of them those of the journal, which has more.
    Short(u32),
}

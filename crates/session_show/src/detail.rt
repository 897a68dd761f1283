//! The level of detail of a log's text.
ghost use Rattle.std.specs.Prelude.{◌≡◌};
ghost use Rattle.session_show.specs.Shown.{has_text};

use session_log::Line;

/// The level of detail of a log's text.
#[derive(Clone, Copy)]
pub enum Detail {
    /// Fixed: the text for programs, with numbers instead of names, and without comments.
    Fixed,
    /// Explained: with names, members and comments.
    Explained,
}

impl Detail {
    /// Returns whether there is any text for a line.
    pub fn has_text(self, line: &[u8], parsed: &Line) -> bool
        ensures { result ≡ has_text self line.now parsed.now }
    {
        match (self, parsed) {
            (_, Line::Input(_) | Line::Sent(_)) => true,
            (Detail::Explained, Line::Comment) => !line.is_empty(),
            (Detail::Fixed, Line::Comment) | (_, Line::Count) => false,
        }
    }
}

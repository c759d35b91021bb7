//! The first line of a file, and the last one.

ghost use Rattle.std.specs.Prelude.{◌≡◌, ◌↔◌, IsTrue};
ghost use Rattle.saved_basis.specs.Files.{title, last_line};

/// Whether the text is the first line: `metab basis 1`.
pub fn is_title(text: &[u8]) -> bool
    ensures { IsTrue result ↔ (text.now ≡ title) }
{
    text == b"metab basis 1".as_slice()
}

/// Whether the text is the last line: `done`.
pub fn is_last_line(text: &[u8]) -> bool
    ensures { IsTrue result ↔ (text.now ≡ last_line) }
{
    text == b"done".as_slice()
}

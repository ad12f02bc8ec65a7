//! What the lines of a page are.

ghost use Rattle.std.specs.Prelude.{◌≡◌};
ghost use Rattle.page_player.specs.PageLines.{step_by, step_of};

/// What a line of a page is, with what stands behind its mark.
#[derive(Clone, Copy)]
pub(crate) enum PageLine<'a> {
    /// A line of the server.
    Hears(&'a [u8]),
    /// A command of the player.
    Asks(&'a [u8]),
    /// The beginning at a match.
    Begins(&'a [u8]),
}

/// What a line is.
pub(crate) fn line_of(line: &[u8]) -> PageLine<'_>
    ensures { step_of line.now ≡ step_by result }
{
    if line.starts_with(b"<") {
        PageLine::Hears(&line[1..])
    } else if line.starts_with(b"!") {
        PageLine::Asks(&line[1..])
    } else {
        PageLine::Begins(line)
    }
}

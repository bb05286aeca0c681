// The fields of a page, appended to a writer.
ghost use Rattle.std.specs.Prelude.{◌≤◌};
ghost use Rattle.text.specs.Writer.{Writes};
ghost use Rattle.session_text.specs.Fields.{blanks, right};
ghost use Rattle.session_text.specs.Claims.{rest_blank};

use text::Writer;

// Appends blanks.
pub(crate) fn put_blanks(page: &mut Writer, count: usize)
    ensures { Writes page.old page.new (blanks count) }
{
    page.repeat(b' ', count);
}

// Appends a number in a field of a width, right.
pub(crate) fn put_right(page: &mut Writer, width: usize, n: usize)
    ensures { Writes page.old page.new (right width n) }
{
    let room = width.saturating_sub(1);
    if n < 10 {
        put_blanks(page, room);
    } else {
        put_right(page, room, n / 10);
    }
    page.byte(48 + (n % 10) as u8);
}

// Appends the blanks that fill a line up, of which so many bytes stand, and its LF.
pub(crate) fn put_rest(page: &mut Writer, filled: usize)
    requires { filled ≤ 80 }
    ensures { Writes page.old page.new (rest_blank filled) }
{
    put_blanks(page, 80 - filled);
    page.byte(b'\n');
}

//! Printable ASCII, which is shown as it is.
ghost use Rattle.std.specs.Prelude.{◌≡◌};
ghost use Rattle.tabled_base.specs.Printable.{is_printable};
ghost use Rattle.tabview_cells.specs.Graphic.{is_graphic};

use tabled_text::run_end;

/// Whether bytes are printable ASCII alone: a line with as many columns as bytes.
#[inline(always)]
pub(crate) fn is_printable(bytes: &[u8]) -> bool
    ensures { result ≡ is_printable bytes.now }
{
    run_end(bytes, 0, b' ', b'~') == bytes.len()
}

/// Whether bytes are printable ASCII without spaces.
#[inline(always)]
pub(crate) fn is_graphic(bytes: &[u8]) -> bool
    ensures { result ≡ is_graphic bytes.now }
{
    run_end(bytes, 0, b'!', b'~') == bytes.len()
}

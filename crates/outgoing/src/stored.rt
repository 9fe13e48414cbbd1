//! A stored cell that is lent out rewritten.

ghost use Rattle.cells.specs.Header.{rewritten};
ghost use Rattle.outgoing.specs.Headers.{header_of, with_header};
ghost use Rattle.std.specs.Prelude.{◌≡◌};

use cells::{Cell, rewrite_cell};

/// Holds a cell in cell memory while it bears another VCI, and the header that it came with. However it is let go, the
/// header is put back.
pub(crate) struct Rewritten<'a> {
    pub(crate) cell: &'a mut Cell,
    header: [u8; 4],
}

impl Drop for Rewritten<'_> {
    fn drop(self)
        ensures { self.exit.0.now ≡ with_header self.entry.header self.entry.cell.now }
    {
        let Rewritten { cell, header } = self;
        put_header(cell, &header);
    }
}

impl<'a> Rewritten<'a> {
    /// Rewrites the cell where it is stored.
    pub(crate) fn to(cell: &'a mut Cell, new_vci: u16) -> Rewritten<'a>
        ensures lent { result.cell.ghost_name ≡ cell.entry.ghost_name }
        ensures cell { result.cell.now ≡ rewritten cell.old new_vci }
        ensures header { result.header ≡ header_of cell.old }
    {
        let header = *cell.first_chunk().unwrap();
        rewrite_cell(cell, new_vci);
        Rewritten { cell, header }
    }
}

/// Replaces the first four bytes of a cell.
fn put_header(cell: &mut Cell, header: &[u8; 4])
    ensures { cell.new ≡ with_header header.now cell.old }
{
    cell[0..4].copy_from_slice(header);
}

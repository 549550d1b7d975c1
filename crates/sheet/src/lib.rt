// The layer sheet: its reader and its writer over lent bytes, and the way back from one to the other.
#![tactic(auto)]

ghost use Rattle.std.specs.Prelude.{◌≡◌, length, take, IfOk, Ok};
ghost use Rattle.writer.specs.Writer.{write_sheet, buffer_after};
ghost use Rattle.sheet.specs.Sheet.{read_sheet};

use layer::{Layer, SheetRefusal};
use reader::{read_lines, read_versioned};
use text::starts;
use writer::write_lines;

// The layer that a sheet says, or the first bad line.
#[tactic(auto, unfolding(crate::specs::Sheet::read_sheet))]
pub fn read_sheet(s: &[u8]) -> Result<Layer, SheetRefusal>
    ensures { result ≡ read_sheet s.now }
{
    if starts(s, b"version=") {
        return read_versioned(s);
    }
    read_lines(Layer::VERSION, 1, s, 0)
}

// The sheet from the buffer's start, which is read as the layer again, and its length; or a refusal with the buffer as it was.
pub fn write_sheet(layer: Layer, buf: &mut [u8]) -> Result<usize, SheetRefusal>
    ensures answer { result ≡ write_sheet layer (length buf.old) }
    ensures contents { buf.new ≡ buffer_after layer buf.old }
    ensures back { IfOk result (λ n. read_sheet (take n buf.new) ≡ Ok layer) }
{
    write_lines(layer, buf)
}

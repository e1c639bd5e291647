// Reading a table from bytes.
ghost use Rattle.std.specs.Prelude.{◌≡◌, true, length, IfOk};
ghost use Rattle.site.specs.Refusals.{answered};
ghost use Rattle.site.specs.Tables.{fair, table};
ghost use Rattle.records.specs.TableRead.{table_read, sized, rows_after, arrows_after};
ghost use Rattle.records.specs.TableWritten.{table_bytes};

use crate::scanning::scan;
use crate::table_size::TableSize;
use site::faults::{Fault, enough};
use site::sheets::Row;

// Reads a table onto the fronts of two sheets. The bytes are scanned twice: everything is tested before the
// first entry is written, so a refusal writes nothing.
pub fn read_table(bytes: &[u8], rows: &mut [Row], arrows: &mut [u16]) -> Result<TableSize, Fault>
    ensures answer { answered result ≡ sized (table_read bytes.now (length rows.old) (length arrows.old)) }
    ensures row_sheet { rows.new ≡ rows_after (table_read bytes.now (length rows.old) (length arrows.old)) rows.old }
    ensures arrow_sheet { arrows.new ≡ arrows_after (table_read bytes.now (length rows.old) (length arrows.old)) arrows.old }
    ensures fair_sheets { IfOk result (λ size. fair size.states rows.new arrows.new ≡ true) }
    ensures trip { IfOk result (λ size. table_bytes (table size.states rows.new arrows.new) ≡ bytes.now) }
{
    let size = scan(bytes, &mut [], &mut [])?;
    enough(rows.len(), size.states)?;
    enough(arrows.len(), size.arrows)?;
    scan(bytes, rows, arrows)
}

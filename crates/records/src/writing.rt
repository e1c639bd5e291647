// Writing any site small enough as the bytes of a table.
ghost use Rattle.std.specs.Prelude.{◌≡◌, length, take, IfOk};
ghost use Rattle.site.specs.Refusals.{answered};
ghost use Rattle.records.specs.Buffers.{counted, buffer_after};
ghost use Rattle.records.specs.TableTrip.{ReadBack};
ghost use Rattle.records.specs.TableWritten.{table_answer};

use crate::kinds::TABLE;
use crate::pen::Pen;
use crate::table_puts::{count_arrows, put_states};
use crate::table_size::{MOST_ARROWS, MOST_STATES};
use site::faults::{Fault, enough};
use site::interface::Site;

// The table of a site, onto the buffer's front; how many bytes it has.
pub fn write_table<S: Site>(site: &S, buffer: &mut [u8]) -> Result<usize, Fault>
    ensures answer { answered result ≡ counted (table_answer (S.Site.arena site.now) (length buffer.old)) }
    ensures bytes { buffer.new ≡ buffer_after (table_answer (S.Site.arena site.now) (length buffer.old)) buffer.old }
    ensures trip { IfOk result (λ n. ReadBack (S.Site.arena site.now) (take n buffer.new)) }
{
    let states = site.states();
    let arrows = count_arrows(site);
    let needed = 3 + 4 * states + 3 * arrows;
    enough(buffer.len(), needed)?;
    if states > MOST_STATES || arrows > MOST_ARROWS {
        return Err(Fault::TableSize { states });
    }
    let mut pen = Pen::new(buffer);
    pen.numbered(TABLE, states);
    put_states(site, &mut pen);
    Ok(pen.written())
}

// A table: a site read off two sheets that it borrows.
ghost use Rattle.std.specs.Prelude.{◌≡◌, true, length};
ghost use Rattle.site.specs.Tables.{fair};

use crate::sheets::Row;

// There is a row for each state and no other. The sheets are fair whenever a table exists: broken ones never get in.
#[derive(Clone, Copy)]
pub struct Table<'a> {
    pub(crate) rows: &'a [Row],
    pub(crate) arrows: &'a [u16],
    ghost ok: { fair (length rows.now) rows.now arrows.now ≡ true },
}

// A table answers as a site.
ghost use Rattle.std.specs.Prelude.{◌≡◌, length};
ghost use Rattle.site.specs.Tables.{table};
ghost use Rattle.site.specs.TableLaws.{table_lawful};

use crate::grades::Grade;
use crate::interface::Site;
use crate::tables::Table;

impl<'a> Site for Table<'a> {
    ghost arena = { λ t. table (length t.rows.now) t.rows.now t.arrows.now };

    ghost lawful = { λ t. table_lawful (length t.rows.now) t.rows.now t.arrows.now t.ok };

    fn states(&self) -> usize {
        self.rows.len()
    }

    fn grade(&self, s: usize) -> Grade {
        self.rows.get(s).map_or(Grade::Confirmed, |row| row.grade)
    }

    fn commands(&self, s: usize) -> usize {
        self.rows.get(s).map_or(0, |row| row.commands as usize)
    }

    fn events(&self, s: usize) -> usize {
        self.rows.get(s).map_or(0, |row| row.events as usize)
    }

    fn next(&self, s: usize, a: usize, b: usize) -> usize {
        let Some(row) = self.rows.get(s) else {
            return 0;
        };
        let events = row.events as usize;
        if a >= row.commands as usize || b >= events {
            return 0;
        }
        self.arrows[row.first as usize + (a * events + b)] as usize
    }
}

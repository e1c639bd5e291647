// The numbers of all states, written into rows that the caller lends.
ghost use Rattle.std.specs.Prelude.{◌≡◌, length, replicate};
ghost use Rattle.site.specs.Refusals.{answered};
ghost use Rattle.parts.specs.Rows.{first_row, rank_row, second_row, rows_fit, rows_answer, row_after};

use crate::labels::stages;
use crate::phases::phases;
use site::faults::{Fault, enough};
use site::interface::Site;

// Fills rows that have one place for each state.
fn fill_rows<S: Site>(
    site: &S,
    firsts: &mut [u16],
    ranks: &mut [u16],
    seconds: &mut [u16],
    labels: &mut [u16],
)
    requires firsts { length firsts.old ≡ (S.Site.arena site.now).states }
    requires ranks { length ranks.old ≡ (S.Site.arena site.now).states }
    requires seconds { length seconds.old ≡ (S.Site.arena site.now).states }
    requires labels { length labels.old ≡ (S.Site.arena site.now).states }
    ensures firsts { firsts.new ≡ first_row (S.Site.arena site.now) }
    ensures ranks { ranks.new ≡ rank_row (S.Site.arena site.now) }
    ensures seconds { seconds.new ≡ second_row (S.Site.arena site.now) }
    ensures labels { labels.new ≡ replicate (S.Site.arena site.now).states 0 }
{
    let count = phases(site, firsts, ranks, labels);
    stages(site, count, firsts, labels, seconds);
}

// Works out the part and the numbers of every state: first numbers, ranks and second numbers, each on the front of its
// slice. `labels` is memory for the work, and its front is cleared in the end.
pub fn number_states<S: Site>(
    site: &S,
    firsts: &mut [u16],
    ranks: &mut [u16],
    seconds: &mut [u16],
    labels: &mut [u16],
) -> Result<usize, Fault>
    ensures answer { answered result ≡ rows_answer (S.Site.arena site.now) (length firsts.old) (length ranks.old) (length seconds.old) (length labels.old) }
    ensures firsts { firsts.new ≡ row_after (S.Site.arena site.now) (rows_fit (S.Site.arena site.now) (length firsts.old) (length ranks.old) (length seconds.old) (length labels.old)) (first_row (S.Site.arena site.now)) firsts.old }
    ensures ranks { ranks.new ≡ row_after (S.Site.arena site.now) (rows_fit (S.Site.arena site.now) (length firsts.old) (length ranks.old) (length seconds.old) (length labels.old)) (rank_row (S.Site.arena site.now)) ranks.old }
    ensures seconds { seconds.new ≡ row_after (S.Site.arena site.now) (rows_fit (S.Site.arena site.now) (length firsts.old) (length ranks.old) (length seconds.old) (length labels.old)) (second_row (S.Site.arena site.now)) seconds.old }
    ensures labels { labels.new ≡ row_after (S.Site.arena site.now) (rows_fit (S.Site.arena site.now) (length firsts.old) (length ranks.old) (length seconds.old) (length labels.old)) (replicate (S.Site.arena site.now).states 0) labels.old }
{
    let n = site.states();
    enough(firsts.len(), n)?;
    enough(ranks.len(), n)?;
    enough(seconds.len(), n)?;
    enough(labels.len(), n)?;
    fill_rows(
        site,
        &mut firsts[0..n],
        &mut ranks[0..n],
        &mut seconds[0..n],
        &mut labels[0..n],
    );
    Ok(n)
}

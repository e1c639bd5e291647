// The replies of one state: one for each of its commands, of the sixteen places that it has.
ghost use Rattle.std.specs.Prelude.{◌≡◌, ◌*◌, ◌<◌, ◌≤◌, length};
ghost use Rattle.records.specs.Lines.{own_replies};

use checker::leaves::PLACES;
use site::interface::Site;

// The replies of a state of the site.
pub(crate) fn own_replies<'a, S: Site>(site: &S, replies: &'a [u8], state: usize) -> &'a [u8]
    requires within { state < (S.Site.arena site.now).states }
    requires enough { 16 * (S.Site.arena site.now).states ≤ length replies.now }
    ensures own { result.now ≡ own_replies (S.Site.arena site.now) replies.now state }
    ensures many { length result.now ≡ (S.Site.arena site.now).commands state }
    ensures few { length result.now ≤ 16 }
{
    &replies[PLACES * state..][..site.commands(state)]
}

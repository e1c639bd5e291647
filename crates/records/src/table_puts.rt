// Putting a table's records into a buffer.
ghost use Rattle.std.specs.Prelude.{◌≡◌, ◌+◌, ◌*◌, ◌<◌, length};
ghost use Rattle.records.specs.Pens.{Fits, Wrote};
ghost use Rattle.records.specs.TableWritten.{arrows_bytes, row_bytes, moves, states_bytes, arrows_to};

use crate::kinds::{ARROW, ROW};
use crate::pen::Pen;
use site::interface::Site;

// The arrows of a state, by command and then by event.
fn put_arrows<S: Site>(site: &S, state: usize, pen: &mut Pen<'_>)
    requires one { state < (S.Site.arena site.now).states }
    requires room { Fits (3 * moves (S.Site.arena site.now) state) pen.old }
    ensures { Wrote (arrows_bytes (S.Site.arena site.now) state (moves (S.Site.arena site.now) state)) pen.old pen.new }
{
    for command in 0..site.commands(state) {
        for event in 0..site.events(state) {
            pen.numbered(ARROW, site.next(state, command, event));
        }
    }
}

// The row of a state.
fn put_row<S: Site>(site: &S, state: usize, pen: &mut Pen<'_>)
    requires { Fits 4 pen.old }
    ensures { Wrote (row_bytes (S.Site.arena site.now) state) pen.old pen.new }
{
    let grade = u8::from(site.grade(state));
    let commands = site.commands(state) as u8;
    let events = site.events(state) as u8;
    pen.text(&[ROW, grade, commands, events]);
}

// How many arrows a site has.
pub(crate) fn count_arrows<S: Site>(site: &S) -> usize
    ensures { result ≡ arrows_to (S.Site.arena site.now) (S.Site.arena site.now).states }
{
    (0..site.states())
        .map(|state| site.commands(state) * site.events(state))
        .sum()
}

// All states with their arrows.
pub(crate) fn put_states<S: Site>(site: &S, pen: &mut Pen<'_>)
    requires { Fits (4 * (S.Site.arena site.now).states + 3 * arrows_to (S.Site.arena site.now) (S.Site.arena site.now).states) pen.old }
    ensures { Wrote (states_bytes (S.Site.arena site.now) (S.Site.arena site.now).states) pen.old pen.new }
{
    for state in 0..site.states() {
        put_row(site, state, pen);
        put_arrows(site, state, pen);
    }
}

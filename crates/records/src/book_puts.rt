// Putting a book's records into a buffer.
ghost use Rattle.std.specs.Prelude.{◌≡◌, ◌+◌, ◌*◌, ◌≤◌, length};
ghost use Rattle.std.specs.List.{flat_map};
ghost use Rattle.records.specs.BookWritten.{reply_bytes, leaf_bytes, leaves_bytes, leaf_long, leaves_long};
ghost use Rattle.records.specs.Pens.{Fits, Wrote};

use crate::kinds::{COVERED, OPEN, REPLY};
use crate::leaf_sizes::{replies_due, width_of};
use crate::own_replies::own_replies;
use crate::pen::Pen;
use checker::leaves::Leaf;
use site::interface::Site;

// A record for each reply.
fn put_events(replies: &[u8], pen: &mut Pen<'_>)
    requires { Fits (2 * length replies.now) pen.old }
    ensures { Wrote (flat_map reply_bytes replies.now) pen.old pen.new }
{
    for reply in replies {
        pen.text(&[REPLY, *reply]);
    }
}

// The leaf of a state, with the state's replies if it is open.
fn put_leaf_record(leaf: Leaf, replies: &[u8], pen: &mut Pen<'_>)
    requires { Fits (leaf_long leaf (length replies.now)) pen.old }
    ensures { Wrote (leaf_bytes leaf replies.now) pen.old pen.new }
{
    match leaf {
        Leaf::Covered { command, rank } => {
            let [high, low] = rank.to_be_bytes();
            pen.text(&[COVERED, command, high, low]);
        }
        Leaf::Open { first, second } => {
            let [first_high, first_low] = first.to_be_bytes();
            let [second_high, second_low] = second.to_be_bytes();
            pen.text(&[OPEN, first_high, first_low, second_high, second_low]);
            put_events(replies, pen);
        }
    }
}

// How many bytes the leaves of a site take, with their replies.
pub(crate) fn leaves_room<S: Site>(site: &S, leaves: &[Leaf]) -> usize
    requires { (S.Site.arena site.now).states ≤ length leaves.now }
    ensures few { result ≤ 37 * (S.Site.arena site.now).states }
    ensures long { result ≡ leaves_long (S.Site.arena site.now) leaves.now (S.Site.arena site.now).states }
{
    leaves[..site.states()]
        .iter()
        .enumerate()
        .map(|(state, leaf)| width_of(*leaf) + 2 * replies_due(*leaf, site.commands(state)))
        .sum()
}

// The leaves of all states, each with its replies.
pub(crate) fn put_leaves<S: Site>(site: &S, leaves: &[Leaf], replies: &[u8], pen: &mut Pen<'_>)
    requires leaves { (S.Site.arena site.now).states ≤ length leaves.now }
    requires replies { 16 * (S.Site.arena site.now).states ≤ length replies.now }
    requires room { Fits (leaves_long (S.Site.arena site.now) leaves.now (S.Site.arena site.now).states) pen.old }
    ensures { Wrote (leaves_bytes (S.Site.arena site.now) leaves.now replies.now (S.Site.arena site.now).states) pen.old pen.new }
{
    for (state, leaf) in leaves[..site.states()].iter().enumerate() {
        put_leaf_record(*leaf, own_replies(site, replies, state), pen);
    }
}

// The lowest moves that keep the rules, and the leaves and replies made of them.
ghost use Rattle.std.specs.Prelude.{◌≡◌, ◌<◌, ◌≤◌};
ghost use Rattle.planner.specs.Choices.{keeps_rule, answers_rule, chosen_command, chosen_reply};
ghost use Rattle.planner.specs.Rows.{numbers_in};

use crate::numbered::Numbered;
use checker::descents::{keeps_numbers, keeps_rank};
use site::interface::Site;

impl<'a, S: Site> Numbered<'a, S> {
    // The state to which command `a` and event `b` lead from `s`; it is one of the site whatever they are.
    fn reached(&self, s: usize, a: usize, b: usize) -> usize
        ensures value { result ≡ (S.Site.arena self.now.site.now).next s a b }
        ensures within { result < (S.Site.arena self.now.site.now).states }
    {
        self.site.next(s, a, b)
    }

    // Whether event `b` against command `a` keeps the rule of the covered state `s`.
    fn keeps(&self, s: usize, a: usize, b: usize) -> bool
        requires { s < (S.Site.arena self.now.site.now).states }
        ensures { result ≡ keeps_rule (S.Site.arena self.now.site.now) (numbers_in self.now.rows) s a b }
    {
        let after = self.reached(s, a, b);
        self.first(after).is_none()
            && keeps_rank(self.site.grade(s), self.rank(s), self.rank(after))
    }

    // Whether event `b` against command `a` keeps the rule of the open state `s`.
    fn answers(&self, s: usize, a: usize, b: usize) -> bool
        requires { s < (S.Site.arena self.now.site.now).states }
        ensures { result ≡ answers_rule (S.Site.arena self.now.site.now) (numbers_in self.now.rows) s a b }
    {
        let after = self.reached(s, a, b);
        let Some(first) = self.first(after) else {
            return false;
        };
        let here = (self.rows.firsts[s], self.second(s));
        keeps_numbers(self.site.grade(s), here, (first, self.second(after)))
    }

    // The lowest command of the covered state `s` that keeps its rule under every event.
    pub(crate) fn lowest_command(&self, s: usize) -> usize
        requires { s < (S.Site.arena self.now.site.now).states }
        ensures value { result ≡ chosen_command (S.Site.arena self.now.site.now) (numbers_in self.now.rows) s }
        ensures few { result ≤ 16 }
    {
        let commands = self.site.commands(s);
        let events = self.site.events(s);
        'found: {
            'commands: for a in 0..commands {
                for b in 0..events {
                    if !self.keeps(s, a, b) {
                        continue 'commands;
                    }
                }
                break 'found a;
            }
            commands
        }
    }

    // The lowest event of the open state `s` that keeps its rule against command `a`.
    pub(crate) fn lowest_event(&self, s: usize, a: usize) -> usize
        requires { s < (S.Site.arena self.now.site.now).states }
        ensures value { result ≡ chosen_reply (S.Site.arena self.now.site.now) (numbers_in self.now.rows) s a }
        ensures few { result ≤ 16 }
    {
        let events = self.site.events(s);
        for b in 0..events {
            if self.answers(s, a, b) {
                return b;
            }
        }
        events
    }
}

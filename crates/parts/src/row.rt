// A row of numbers, one for each state of a site, and where one round can lead in it.
ghost use Rattle.std.specs.Prelude.{◌≡◌, ℕ, ◌≤◌, Bool, length};
ghost use Rattle.std.specs.Iterator.{ActsAs};
ghost use Rattle.site.specs.Counting.{every};
ghost use Rattle.parts.specs.Lifting.{at, worst, best};
ghost use Rattle.parts.specs.Moves.{holds};

use site::interface::Site;

// The numbers of a site's states.
#[derive(Drop)]
pub(crate) struct Row<'a, S: Site> {
    pub(crate) site: &'a S,
    pub(crate) numbers: &'a [u16],
    ghost long: { length numbers.now ≡ (S.Site.arena site.now).states },
}

impl<'a, S: Site> Row<'a, S> {
    // The number of the state to which command `a` and event `b` lead from `s`.
    fn after(&self, s: usize, a: usize, b: usize) -> u16
        ensures { result ≡ at self.now.numbers.now ((S.Site.arena self.now.site.now).next s a b) }
    {
        self.numbers[self.site.next(s, a, b)]
    }

    // The greatest number to which command `a` can lead from `s`.
    fn worst_of(&self, s: usize, a: usize) -> u16
        ensures { result ≡ worst (S.Site.arena self.now.site.now) (at self.now.numbers.now) s a ((S.Site.arena self.now.site.now).events s) }
    {
        (0..self.site.events(s)).fold(0, |most, b| most.max(self.after(s, a, b)))
    }

    // The least number that the controller can keep to in `s` by one command, and at most `top`.
    pub(crate) fn best_of(&self, top: u16, s: usize) -> u16
        ensures value { result ≡ best (S.Site.arena self.now.site.now) top (at self.now.numbers.now) s ((S.Site.arena self.now.site.now).commands s) }
        ensures within { result ≤ top }
    {
        (0..self.site.commands(s)).fold(top, |least, a| least.min(self.worst_of(s, a)))
    }

    // Whether `s` has a command under which every event leads to a number that passes the test. The loops are written
    // out, since with `any` over `all` random sites take some 5 % longer to plan.
    pub(crate) fn holds<F: Fn(u16) -> bool>(&self, s: usize, test: F) -> bool
        requires { F.IsAlwaysCallable test }
        ensures { (p : ℕ → Bool) → ActsAs F.Fn test p → result ≡ holds (S.Site.arena self.now.site.now) (λ t. p (at self.now.numbers.now t)) s }
    {
        let events = self.site.events(s);
        'commands: for a in 0..self.site.commands(s) {
            for b in 0..events {
                if !test(self.after(s, a, b)) {
                    continue 'commands;
                }
            }
            return true;
        }
        false
    }
}

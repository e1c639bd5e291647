// The worked examples, shown by one result over a list.
ghost use Rattle.std.specs.Prelude.{◌≡◌, length};
ghost use Rattle.floors.specs.Examples.{examples};
ghost use Rattle.floors.specs.Shown.{Each};

// How many worked examples there are; each is as the rules say.
pub fn worked_examples() -> usize
    ensures count { result ≡ length examples }
    ensures shown { Each examples }
{
    13
}

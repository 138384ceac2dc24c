// Lists, with a test that the caller brings.
#![tactic(auto)]

ghost use Rattle.std.specs.Prelude.{◌≡◌, Bool};
ghost use Rattle.rules.specs.General.{every, every_two};
ghost use Rattle.lists.specs.Tests.{Computes};

// Whether an element passes a test with each of those after it.
fn goes_with<T, F: Fn(&T, &T) -> bool>(x: &T, rest: &[T], test: &F) -> bool
    requires { F.IsAlwaysCallable test.now }
    ensures { (p : T → T → Bool) → Computes (F.post test.now) p → result ≡ every (p x.now) rest.now }
{
    rest.iter().all(|y| test(x, y))
}

// Whether every two elements pass a test, the first of them before the second.
pub fn every_two<T, F: Fn(&T, &T) -> bool>(xs: &[T], test: F) -> bool
    requires { F.IsAlwaysCallable test }
    ensures { (p : T → T → Bool) → Computes (F.post test) p → result ≡ every_two p xs.now }
{
    let mut left = xs;
    while let Some((x, rest)) = left.split_first() {
        if !goes_with(x, rest, &test) {
            return false;
        }
        left = rest;
    }
    true
}

//! In which order choices are tried.
ghost use Rattle.std.specs.Prelude.{◌≡◌, ◌≤◌, ◌*◌, length};
ghost use Rattle.std.specs.List.{All};
ghost use Rattle.choices.specs.Choices.{comes_before, cost_of, count_of, is_earlier};

/// What those cost that are taken.
fn cost_of(costs: &[u8], choice: &[bool]) -> u128
    requires { length choice.now ≡ length costs.now }
    ensures { result ≡ cost_of costs.now choice.now }
{
    let mut total = 0;
    for place in 0..costs.len() {
        if choice[place] {
            total += u128::from(costs[place]);
        }
    }
    total
}

/// How many are taken.
fn count_of(costs: &[u8], choice: &[bool]) -> usize
    requires { length choice.now ≡ length costs.now }
    ensures { result ≡ count_of costs.now choice.now }
{
    let mut count = 0;
    for place in 0..costs.len() {
        if choice[place] {
            count += 1;
        }
    }
    count
}

/// Whether a choice takes the first thing of which the two differ.
fn is_earlier(choice: &[bool], other: &[bool]) -> bool
    requires { length choice.now ≡ length other.now }
    ensures { result ≡ is_earlier choice.now other.now }
{
    for place in 0..choice.len() {
        if choice[place] != other[place] {
            return choice[place];
        }
    }
    false
}

/// Whether a choice comes before another: it costs less; or as much, and takes fewer; or as many, and it is the earlier one.
pub(crate) fn comes_before(costs: &[u8], choice: &[bool], other: &[bool]) -> bool
    requires choice { length choice.now ≡ length costs.now }
    requires other { length other.now ≡ length costs.now }
    ensures { result ≡ comes_before costs.now choice.now other.now }
{
    let cost = cost_of(costs, choice);
    let other_cost = cost_of(costs, other);
    if cost != other_cost {
        return cost < other_cost;
    }
    let count = count_of(costs, choice);
    let other_count = count_of(costs, other);
    if count != other_count {
        return count < other_count;
    }
    is_earlier(choice, other)
}

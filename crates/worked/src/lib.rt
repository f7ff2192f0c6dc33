// The worked examples, as one theorem, on the call that computes the ten counts.
#![tactic(auto)]

ghost use Rattle.worked.specs.Examples.{Examples, ten_counts};
ghost use Rattle.std.specs.Prelude.{◌≡◌};

use schedule::count;

/// The counts for (l, s) = (0, 3), (1, 1), (2, 1), (5, 2), (6, 2), (7, 2), (10, 3), (11, 3), (4, 4), (20, 1).
pub fn worked_counts() -> [Option<u64>; 10]
    ensures value { result ≡ ten_counts }
    ensures examples { Examples }
{
    // ten calls written out: a map is no plainer, since the proof takes the ten counts from the contract of the call
    [
        count(0, 3),
        count(1, 1),
        count(2, 1),
        count(5, 2),
        count(6, 2),
        count(7, 2),
        count(10, 3),
        count(11, 3),
        count(4, 4),
        count(20, 1),
    ]
}

//! Labels: places of one class have one label, the lowest place of the class.
// No struct holds the labels: what the clauses say of them (their length, `Rooted`, `Grown`) is said of the count of the places,
// and a struct of both would have to promise in each join that the places stay.
ghost use Rattle.std.specs.Prelude.{◌≡◌, ℕ, ◌<◌, ◌≤◌, length};
ghost use Rattle.closure.specs.Labels.{label};
ghost use Rattle.closure.specs.Working.{merge, Spare, Joined};

/// Each of the first `terms` places in a class of its own. The count stands beside the labels as in `join`.
pub(crate) fn start(labels: &mut [u16], terms: usize)
    requires inside { terms ≤ length labels.old }
    requires few { terms ≤ 512 }
    ensures own { (k : ℕ) → k < terms → label labels.new k ≡ k }
    ensures spare { Spare terms labels.old labels.new }
{
    for (i, label) in labels[..terms].iter_mut().enumerate() {
        *label = i as u16;
    }
}

/// Label `low` in place of `high`, wherever it stands. Each place is written, so that the pass runs over many at once.
fn relabel(labels: &mut [u16], high: u16, low: u16)
    ensures { (k : ℕ) → k < length labels.old → label labels.new k ≡ merge low high (label labels.old k) }
{
    for label in labels.iter_mut() {
        *label = if *label == high { low } else { *label };
    }
}

/// Joins the classes of two places; false where they are one already. The count of terms stands beside the labels, since
/// a caller may lend more labels; cut at the door, each clause would still say that they are as many as the places.
pub(crate) fn join(labels: &mut [u16], terms: usize, a: usize, b: usize) -> bool
    requires inside { terms ≤ length labels.old }
    requires left { a < terms }
    requires right { b < terms }
    ensures { Joined terms a b labels.old labels.new result }
{
    let x = labels[a];
    let y = labels[b];
    if x == y {
        return false;
    }
    relabel(&mut labels[..terms], x.max(y), x.min(y));
    true
}

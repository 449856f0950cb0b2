//! Pending equations: what a join makes equal among the places that a pass has left behind. The lists of uses only
//! say where to look, so no proof rests on them: a pass that finds nothing to join ends the closure.
// Places, table, labels, uses and queue are lent side by side: each call changes others of them, and a struct of all would
// have to promise in each call which of them stay.
ghost use Rattle.std.specs.Prelude.{◌≡◌, ℕ, ◌<◌, ◌≤◌, false, [], length};
ghost use Rattle.queue.specs.Entries.{entries, room};
ghost use Rattle.closure.specs.Working.{Rooted, Joined, Grown};
ghost use Rattle.closure.specs.Pending.{Added};

use super::labels::join;
use super::places::Places;
use super::table::{Table, bucket};
use queue::Queue;
use terms::{MOST_TERMS, Node};

/// Two places that are to be joined.
// Not a sheet's equation, which is between numbers of its terms: closure stands on no sheet.
#[derive(Clone, Copy)]
pub(crate) struct Equation {
    left: u16,
    right: u16,
}

impl Equation {
    /// What a slot holds before it is used.
    pub(crate) const BLANK: Equation = Equation { left: 0, right: 0 };
}

/// The queue of pending equations between two joins, when none is pending. Its slots are lent once for all joins.
#[derive(Drop)]
pub(crate) struct Pending<'a> {
    queue: Queue<'a, Equation>,
    ghost empty: { entries queue ≡ [] },
    ghost short: { room queue ≡ 64 },
}

impl<'a> Pending<'a> {
    pub(crate) fn new(slots: &'a mut [Equation; 64]) -> Self {
        Pending {
            queue: Queue::new(slots),
        }
    }
}

/// Most uses of one place.
const ARGUMENTS: usize = 3;

const MOST_USES: usize = ARGUMENTS * MOST_TERMS;

/// Lists for each label of the terms that use a place of it, three uses for each place. They are links in arrays, since
/// closure allocates nothing.
#[derive(Drop)]
pub(crate) struct Uses {
    first: [Option<u16>; MOST_TERMS],
    more: [Option<u16>; MOST_USES],
}

impl Uses {
    /// No uses yet.
    pub(crate) const BLANK: Uses = Uses {
        first: [None; MOST_TERMS],
        more: [None; MOST_USES],
    };

    /// Lists the uses of all places.
    // In lists that stand already, since lists made here would be copied whole when they are handed out.
    pub(crate) fn list(&mut self, places: &Places, labels: &[u16]) {
        for (i, record) in places.bank[..places.terms].iter().enumerate() {
            self.note(labels, record.node, i * ARGUMENTS);
        }
    }

    /// Notes the uses of the places that a node names, from the use `from` on.
    // By arity: with arguments listed through an array closure was a quarter slower.
    fn note(&mut self, labels: &[u16], node: Node, from: usize)
        requires { from < 1536 }
    {
        match node {
            Node::Name(_) | Node::Constant(_) => {}
            Node::Unary(_, a) => self.link(labels, a, from),
            Node::Binary(_, a, b) => {
                self.link(labels, a, from);
                self.link(labels, b, from + 1);
            }
            Node::Ternary(_, a, b, c) => {
                self.link(labels, a, from);
                self.link(labels, b, from + 1);
                self.link(labels, c, from + 2);
            }
        }
    }

    fn link(&mut self, labels: &[u16], argument: u16, entry: usize) {
        let Some(label) = labels.get(argument as usize) else {
            return;
        };
        let label = *label as usize;
        if label < MOST_TERMS && entry < MOST_USES {
            self.more[entry] = self.first[label];
            self.first[label] = Some(entry as u16);
        }
    }

    /// Moves the first use of a label over to another label; answers the place that uses it.
    fn hand_over(&mut self, gone: usize, heir: usize) -> Option<usize> {
        // Tested and not read by `get`, since each is written too.
        if gone >= MOST_TERMS || heir >= MOST_TERMS {
            return None;
        }
        let entry = self.first[gone]?;
        let here = entry as usize;
        if here >= MOST_USES {
            return None;
        }
        self.first[gone] = self.more[here];
        self.more[here] = self.first[heir];
        self.first[heir] = Some(entry);
        Some(here / ARGUMENTS)
    }
}

// The queue is lent without what `Pending` knows of it, so each call says that its room stays.
/// Looks a place on the table up anew: a place of the same signature and another label makes an equation.
fn revisit(
    places: &Places,
    table: &Table,
    labels: &[u16],
    user: usize,
    pending: &mut Queue<Equation>,
)
    requires inside { table.now.seen ≤ places.now.terms }
    requires labelled { places.now.terms ≤ length labels.now }
    requires user { user < table.now.seen }
    ensures added { Added places.now.bank.now places.now.terms labels.now (entries pending.old) (entries pending.new) }
    ensures roomy { room pending.new ≡ room pending.old }
{
    let sought = places.signature(user, labels);
    if let Some(j) = table.lookup(places, labels, bucket(sought), sought) {
        if labels[user] != labels[j] {
            let _ = pending.push(Equation {
                left: user as u16,
                right: j as u16,
            });
        }
    }
}

/// Looks up anew the places on the table that use the label `gone`, and hands their uses over to the label that took
/// its place.
fn revisit_users(
    places: &Places,
    table: &Table,
    labels: &[u16],
    uses: &mut Uses,
    gone: u16,
    pending: &mut Queue<Equation>,
)
    requires inside { table.now.seen ≤ places.now.terms }
    requires labelled { places.now.terms ≤ length labels.now }
    ensures added { Added places.now.bank.now places.now.terms labels.now (entries pending.old) (entries pending.new) }
    ensures roomy { room pending.new ≡ room pending.old }
{
    let gone = gone as usize;
    let Some(heir) = labels.get(gone).copied() else {
        return;
    };
    // Bounded by all uses, since no proof says that a list has an end.
    for _ in 0..MOST_USES {
        let Some(user) = uses.hand_over(gone, heir as usize) else {
            return;
        };
        if user < table.seen {
            revisit(places, table, labels, user, pending);
        }
    }
}

/// Joins the places of an equation, and finds what that makes equal on the table. Answers whether two classes became
/// one.
fn settle(
    places: &Places,
    table: &Table,
    labels: &mut [u16],
    uses: &mut Uses,
    equation: Equation,
    pending: &mut Queue<Equation>,
) -> bool
    requires inside { table.now.seen ≤ places.now.terms }
    requires labelled { places.now.terms ≤ length labels.old }
    requires left { equation.left < places.now.terms }
    requires right { equation.right < places.now.terms }
    ensures joined { Joined places.now.terms equation.left equation.right labels.old labels.new result }
    ensures added { Added places.now.bank.now places.now.terms labels.new (entries pending.old) (entries pending.new) }
    ensures quiet { result ≡ false → entries pending.new ≡ entries pending.old }
    ensures roomy { room pending.new ≡ room pending.old }
{
    let left = equation.left as usize;
    let right = equation.right as usize;
    let gone = labels[left].max(labels[right]);
    if !join(labels, places.terms, left, right) {
        return false;
    }
    revisit_users(places, table, labels, uses, gone, pending);
    true
}

/// After a join that did away with the label `gone`: joins what that makes equal on the table, and what follows from
/// it, first in first out. Answers how often two classes became one.
pub(crate) fn propagate(
    places: &Places,
    table: &Table,
    labels: &mut [u16],
    uses: &mut Uses,
    pending: &mut Pending,
    gone: u16,
) -> u16
    requires inside { table.now.seen ≤ places.now.terms }
    requires labelled { places.now.terms ≤ length labels.old }
    requires rooted { Rooted places.now.terms labels.old }
    ensures { Grown places.now.bank.now places.now.terms labels.old labels.new result }
{
    let queue = &mut pending.queue;
    revisit_users(places, table, labels, uses, gone, queue);
    let mut joins = 0;
    // The queue grows while it is emptied.
    while let Some(equation) = queue.pop() {
        if settle(places, table, labels, uses, equation, queue) {
            joins += 1;
        }
    }
    joins
}

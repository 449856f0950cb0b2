//! The bank of terms: interning, and the guard that lets working terms leave again.
ghost use Rattle.std.specs.Prelude.{◌≡◌, ℕ, ◌≤◌, length, Decides, IfOk, IfErr, MatchOption, MatchResult, slice_index};
ghost use Rattle.terms.specs.Terms.{Term, name_set, occurs};
ghost use Rattle.terms.specs.Bank.{Fit, node_at, floor, Misses, Lacks, LowestAt, LowestAbove, Ordered, term_at, relabel, record_of, Measured, InternedNode, Appended, RoomExhausted, Filed, FiledAbove, FiledInBank};

use super::{Count, Node, TermRecord};
use fault::TableFault;

/// The most different terms that a bank holds.
pub const MOST_TERMS: usize = 512;

/// Whether two nodes are the same: what the derived `==` decides, in a contract.
pub fn same_node(a: Node, b: Node) -> bool
    ensures { Decides result (a ≡ b) }
{
    a == b
}

impl Node {
    /// The first place at which the node can stand: above its arguments.
    fn floor(self) -> usize
        ensures { result ≡ floor self }
    {
        match self {
            Node::Name(_) | Node::Constant(_) => 0,
            Node::Unary(_, a) => a as usize + 1,
            Node::Binary(_, a, b) => a.max(b) as usize + 1,
            Node::Ternary(_, a, b, c) => a.max(b.max(c)) as usize + 1,
        }
    }

    /// Whether the node names places below `terms` and one of the 32 names.
    fn is_fit(self, terms: usize) -> bool
        ensures { Decides result (Fit terms self) }
    {
        match self {
            Node::Name(x) => x < 32,
            _ => self.floor() <= terms,
        }
    }
}

/// The lowest place of a node, searched from the first at which it can stand.
// The count comes beside the bank, here and below, since what is promised of a search is said of both.
fn find_above(bank: &[TermRecord], terms: usize, node: Node) -> Option<usize>
    requires inside { terms ≤ length bank.now }
    requires fit { Fit terms node }
    ensures { MatchOption result (Misses bank.now terms node) (LowestAbove bank.now terms node) }
{
    let floor = node.floor();
    let above = &bank[floor..terms];
    above
        .iter()
        .position(|record| record.node == node)
        .map(|i| floor + i)
}

/// The lowest place of a node.
fn find(bank: &[TermRecord], terms: usize, node: Node) -> Option<usize>
    requires { terms ≤ length bank.now }
    ensures { MatchOption result (Lacks bank.now terms node) (LowestAt bank.now terms node) }
{
    bank[..terms].iter().position(|record| record.node == node)
}

fn measured(bank: &[TermRecord], node: Node) -> TermRecord
    requires { Fit (length bank.now) node }
    ensures { result ≡ record_of bank.now node }
{
    let (height, names) = match node {
        Node::Name(x) => (0, 1u32 << x),
        Node::Constant(_) => (0, 0),
        Node::Unary(_, a) => {
            let a = bank[a as usize];
            (a.height.saturating_add(1), a.names)
        }
        Node::Binary(_, a, b) => {
            let (a, b) = (bank[a as usize], bank[b as usize]);
            let height = a.height.max(b.height);
            (height.saturating_add(1), a.names | b.names)
        }
        Node::Ternary(_, a, b, c) => {
            let (a, b, c) = (bank[a as usize], bank[b as usize], bank[c as usize]);
            let height = a.height.max(b.height.max(c.height));
            (height.saturating_add(1), a.names | (b.names | c.names))
        }
    };
    TermRecord {
        node,
        height,
        names,
    }
}

/// Writes the record of a node behind the others, where there is room.
fn add(bank: &mut [TermRecord], count: &mut Count, node: Node) -> Result<u16, TableFault>
    requires inside { count.old.terms ≤ length bank.old }
    requires fit { Fit count.old.terms node }
    ensures added { IfOk result (Appended bank.old count.old.terms node bank.new count.new.terms) }
    ensures refused { IfErr result (RoomExhausted bank.old count.old.terms bank.new count.new.terms) }
{
    let terms = count.terms as usize;
    if terms >= MOST_TERMS || terms >= bank.len() {
        return Err(TableFault::TermsExhausted);
    }
    bank[terms] = measured(bank, node);
    count.terms += 1;
    Ok(terms as u16)
}

/// Interning in any memory, by nodes. Apart from `intern`, whose clause on terms follows from this one.
fn file(bank: &mut [TermRecord], count: &mut Count, node: Node) -> Result<u16, TableFault>
    ensures { Filed bank.old count.old.terms node bank.new count.new.terms result }
{
    let terms = count.terms as usize;
    if terms > bank.len() || !node.is_fit(terms) {
        return Err(TableFault::BadMemory);
    }
    match find(bank, terms, node) {
        Some(i) => Ok(i as u16),
        None => add(bank, count, node),
    }
}

/// The same, searched only from the first place on at which the node can stand.
fn file_above(bank: &mut [TermRecord], count: &mut Count, node: Node) -> Result<u16, TableFault>
    ensures { FiledAbove bank.old count.old.terms node bank.new count.new.terms result }
{
    let terms = count.terms as usize;
    if terms > bank.len() || !node.is_fit(terms) {
        return Err(TableFault::BadMemory);
    }
    match find_above(bank, terms, node) {
        Some(i) => Ok(i as u16),
        None => add(bank, count, node),
    }
}

/// The place of the term that `node` makes of the bank's terms, added behind the others where it is new.
/// Refuses a new term where the bank is full, and a node or a count that does not fit the memory.
pub fn intern(bank: &mut [TermRecord], count: &mut Count, node: Node) -> Result<u16, TableFault>
    ensures terms { InternedNode bank.old count.old.terms node bank.new count.new.terms result }
    ensures nodes { Filed bank.old count.old.terms node bank.new count.new.terms result }
{
    file(bank, count, node)
}

/// What `intern` does in a bank, in less time: the term is searched only above its arguments. In memory that is no bank
/// a record below them is not looked at, so it may be written again.
pub fn intern_above(
    bank: &mut [TermRecord],
    count: &mut Count,
    node: Node,
) -> Result<u16, TableFault>
    ensures terms { InternedNode bank.old count.old.terms node bank.new count.new.terms result }
    ensures bank { FiledInBank bank.old count.old.terms node bank.new count.new.terms result }
    ensures nodes { FiledAbove bank.old count.old.terms node bank.new count.new.terms result }
{
    file_above(bank, count, node)
}

/// Whether the first `terms` records have their arguments below them, so that each stands for a term.
pub fn is_ordered(bank: &[TermRecord], terms: usize) -> bool
    ensures { Decides result (Ordered bank.now terms) }
{
    terms <= bank.len()
        && bank[..terms]
            .iter()
            .enumerate()
            .all(|(i, record)| record.node.is_fit(i))
}

impl TermRecord {
    /// Whether name `x` stands in the term.
    pub fn mentions(&self, x: u8) -> bool
        ensures { (t : Term) → self.now.names ≡ name_set t → result ≡ occurs x t }
    {
        let names = self.names;
        x < 32 && (names >> x) % 2 == 1
    }
}

/// The node with each place in it replaced by what stands there in `places`; none where they have no such place.
pub fn with_places(node: Node, places: &[u16]) -> Option<Node>
    ensures { MatchOption result (Fit (length places.now) node → ⊥) (λ moved. Fit (length places.now) node × (moved ≡ relabel (λ a. slice_index places.now a) node)) }
{
    if !node.is_fit(places.len()) {
        return None;
    }
    Some(match node {
        Node::Name(x) => Node::Name(x),
        Node::Constant(f) => Node::Constant(f),
        Node::Unary(f, a) => Node::Unary(f, places[a as usize]),
        Node::Binary(f, a, b) => Node::Binary(f, places[a as usize], places[b as usize]),
        Node::Ternary(f, a, b, c) => Node::Ternary(
            f,
            places[a as usize],
            places[b as usize],
            places[c as usize],
        ),
    })
}

/// Whether the record at place `i` is over places below it, and has the height and the names of its node.
pub fn is_measured(bank: &[TermRecord], i: usize) -> bool
    ensures { Decides result (Measured bank.now i) }
{
    i < bank.len() && bank[i].node.is_fit(i) && bank[i] == measured(bank, bank[i].node)
}

impl Count {
    /// What was made; where it was refused, the count is again what it was before.
    // Beside the guard, which restores the count on every way out.
    pub fn or_restored<T>(
        &mut self,
        before: u16,
        made: Result<T, TableFault>,
    ) -> Result<T, TableFault>
        ensures made { result ≡ made }
        ensures count { MatchResult made (λ _. self.new.terms ≡ self.old.terms) (λ _. self.new.terms ≡ before) }
    {
        if made.is_err() {
            self.terms = before;
        }
        made
    }
}

/// Restores the count when it is let go, so that terms added meanwhile leave the bank on every way out.
pub struct CountGuard<'a> {
    pub count: &'a mut Count,
    saved: u16,
}

impl<'a> CountGuard<'a> {
    /// Takes the count over, and remembers it.
    pub fn new(count: &'a mut Count) -> Self
        ensures lent { result.count.ghost_name ≡ count.entry.ghost_name }
        ensures count { result.count.now ≡ count.old }
        ensures saved { result.saved ≡ count.old.terms }
    {
        let saved = count.terms;
        CountGuard { count, saved }
    }
}

impl Drop for CountGuard<'_> {
    fn drop(self)
        ensures { self.exit.0.now.terms ≡ self.entry.saved }
    {
        self.count.terms = self.saved;
        let CountGuard { count: _, saved: _ } = self;
    }
}

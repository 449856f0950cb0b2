//! A large row: six vector terms 4 to 8 high and 22 conditions, in a bank of some 300 terms.
ghost use Rattle.std.specs.Prelude.{ℕ};

use fault::TableFault;
use rows::{RowRecord, at_or};
use terms::{Condition, Count, Node, Sign, TermRecord, intern_above};

const HEIGHTS: [usize; 6] = [8, 8, 7, 6, 5, 4];

/// How many of the bank's terms stand in no term of the row.
const OTHERS: u16 = 240;

/// The lent bank that the terms are added to.
#[derive(Drop)]
struct Bank<'a> {
    records: &'a mut [TermRecord],
    count: &'a mut Count,
}

/// What the row's terms are made of: names, constants, and terms over both.
#[derive(Clone, Copy)]
struct Stock {
    names: [u16; 8],
    constants: [u16; 8],
    shared: [u16; 4],
}

/// One of the vector's terms with what it stands on, lowest first; the first `height` floors count.
// One array for all heights is plainer than a vector that may want memory.
#[derive(Clone, Copy)]
struct Tower {
    floors: [u16; 8],
    height: usize,
}

impl Tower {
    const BLANK: Tower = Tower {
        floors: [0; 8],
        height: 0,
    };

    /// The term at a floor, counted round.
    fn floor(&self, k: usize) -> u16 {
        at_or(&self.floors, k % self.height.max(1), 0)
    }

    fn top(&self) -> u16 {
        at_or(&self.floors, self.height.saturating_sub(1), 0)
    }
}

impl Bank<'_> {
    fn add(&mut self, node: Node) -> Result<u16, TableFault> {
        intern_above(self.records, self.count, node)
    }

    fn add_others(&mut self) -> Result<(), TableFault> {
        let mut last = self.add(Node::Name(31))?;
        for _ in 1..OTHERS {
            last = self.add(Node::Unary(30, last))?;
        }
        Ok(())
    }

    /// Eight terms without arguments, by number.
    fn add_leaves<F: Fn(u8) -> Node + Drop>(&mut self, leaf: F) -> Result<[u16; 8], TableFault>
        requires { (x : ℕ) → F.pre leaf x }
    {
        let mut places = [0; 8];
        for (place, x) in places.iter_mut().zip(0..8u8) {
            *place = self.add(leaf(x))?;
        }
        Ok(places)
    }

    fn add_stock(&mut self) -> Result<Stock, TableFault> {
        let names = self.add_leaves(|x| Node::Name(x))?;
        let constants = self.add_leaves(|s| Node::Constant(s))?;
        let mut shared = [0; 4];
        for ((term, name), constant) in shared.iter_mut().zip(&names[4..]).zip(&constants) {
            *term = self.add(Node::Binary(2, *name, *constant))?;
        }
        Ok(Stock {
            names,
            constants,
            shared,
        })
    }

    fn add_tower(&mut self, stock: Stock, v: usize, height: usize) -> Result<Tower, TableFault> {
        let symbol = 3 + (v % 3) as u8;
        let mut floors = [0; 8];
        let mut top = self.add(Node::Unary(1, stock.names[v % 8]))?;
        floors[0] = top;
        // By number, which also says what stands beside the floor below.
        for k in 1..height.min(8) {
            let beside = if k + 1 < height {
                stock.names[(v % 8 + k) % 8]
            } else {
                stock.shared[v % 4]
            };
            top = self.add(Node::Binary(symbol, top, beside))?;
            floors[k] = top;
        }
        Ok(Tower { floors, height })
    }

    fn add_towers(&mut self, stock: Stock) -> Result<[Tower; 6], TableFault> {
        let mut towers = [Tower::BLANK; 6];
        for ((v, tower), height) in towers.iter_mut().enumerate().zip(HEIGHTS) {
            *tower = self.add_tower(stock, v, height)?;
        }
        Ok(towers)
    }

    fn add_right(
        &mut self,
        stock: Stock,
        towers: &[Tower; 6],
        k: usize,
    ) -> Result<u16, TableFault> {
        let name = stock.names[k % 8];
        if k % 5 == 4 {
            let floor = towers[(k % 6 + 1) % 6].floor(2);
            return self.add(Node::Binary(12, floor, name));
        }
        match k % 3 {
            0 => Ok(stock.names[k % 8 * 5 % 8]),
            1 => Ok(stock.constants[k % 8]),
            _ => self.add(Node::Unary(20, name)),
        }
    }

    fn add_conditions(
        &mut self,
        stock: Stock,
        towers: &[Tower; 6],
    ) -> Result<[Condition; 22], TableFault> {
        let mut list = [Condition::BLANK; 22];
        // By number, from which both sides and the sign are chosen.
        for (k, condition) in list.iter_mut().enumerate() {
            let left = towers[k % 6].floor(k / 6);
            let right = self.add_right(stock, towers, k)?;
            let sign = if k % 4 == 0 {
                Sign::Different
            } else {
                Sign::Equal
            };
            *condition = Condition { left, right, sign };
        }
        Ok(list)
    }
}

/// Adds the terms of the large row and others to an empty bank.
pub(crate) fn large_row(
    bank: &mut [TermRecord],
    count: &mut Count,
) -> Result<RowRecord, TableFault> {
    let mut bank = Bank {
        records: bank,
        count,
    };
    bank.add_others()?;
    let stock = bank.add_stock()?;
    let towers = bank.add_towers(stock)?;
    let conditions = bank.add_conditions(stock, &towers)?;
    Ok(RowRecord {
        bits: [false; 16],
        vector: towers.map(|tower| tower.top()),
        conditions,
        used: 22,
    })
}

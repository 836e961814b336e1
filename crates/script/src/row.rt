// The rows of a script's table.
ghost use Rattle.std.specs.Prelude.{◌≡◌, take};
ghost use Rattle.chain.specs.Chain.{verdict, Rule};
ghost use Rattle.script.specs.declared.row.Row.{Row};

use chain::Linked;
use chain::refusal::ChainRefusal;

// How many rows of a table count.
pub const MOST_ROWS: usize = 4096;

// Five plain numbers, which need not make sense: a table is played as it was lent.
#[derive(Clone, Copy, Debug, PartialEq, Eq)]
pub struct Row {
    // 0 Off, 1 Back, 2 Hold, 3 Req, 4 Go
    pub kind: u8,
    pub phase: u8,
    pub byte: u8,
    // 0 good, 1 bad
    pub parity: u8,
    // the number of the row that follows, rows being numbered from 1; zero ends the chain
    pub next: u32,
}

impl Linked for Row {
    ghost next = { λ r. r.next };

    fn next(&self) -> usize {
        self.next as usize
    }
}

// The rows that count: the first 4,096.
#[tactic(auto, using(std::proofs::lemmas::List::take_min))]
pub fn counted(rows: &[Row]) -> &[Row]
    ensures { result.now ≡ take 4096 rows.now }
{
    &rows[..MOST_ROWS.min(rows.len())]
}

// How many records the table's chain has, or the first whose next ends it wrongly.
pub fn check(rows: &[Row]) -> Result<usize, ChainRefusal>
    ensures value { result ≡ verdict (λ (x : Row). x.next) (take 4096 rows.now) }
    ensures rule { Rule (λ (x : Row). x.next) (take 4096 rows.now) }
{
    chain::check(counted(rows))
}

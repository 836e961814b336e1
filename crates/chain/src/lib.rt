// Chains of records, numbered from 1, each of which tells the number of the next.
#![tactic(auto)]

pub mod refusal;

ghost use Rattle.std.specs.Prelude.{◌≡◌, ℕ};
ghost use Rattle.chain.specs.Chain.{leads as leads_on, verdict, Rule};

use refusal::ChainRefusal;

// A record that tells which one follows it.
pub trait Linked {
    ghost next: { Self → ℕ };

    // The number of the record after this one, zero for none, as the tables of records have it.
    fn next(&self) -> usize
        ensures { result ≡ next self.now };
}

// Whether a chain goes on from the record with this number to its next, in a table of so many records: it goes upward
// only, and stays within the table.
pub fn leads(records: usize, number: usize, next: usize) -> bool
    ensures { result ≡ leads_on records number next }
{
    number < next && next <= records
}

// Counts the records of the chain that begins at record 1, or refuses with the first one whose next ends it wrongly.
#[tactic(auto, using(crate::proofs::Keeps::rule))]
pub fn check<R: Linked>(records: &[R]) -> Result<usize, ChainRefusal>
    ensures value { result ≡ verdict R.Linked.next records.now }
    ensures rule { Rule R.Linked.next records.now }
{
    walk(records)
}

// A loop, which breaks with its answer; an iterator is no plainer, for count and last record come from one and the same walk.
#[tactic(auto, using(crate::proofs::Steps::led, crate::proofs::Keeps::empty, crate::proofs::Keeps::counted, crate::proofs::Keeps::refused, crate::proofs::Keeps::onward))]
fn walk<R: Linked>(records: &[R]) -> Result<usize, ChainRefusal>
    ensures { result ≡ verdict R.Linked.next records.now }
{
    if records.is_empty() {
        return Ok(0);
    }
    let mut number = 1;
    let mut count = 0;
    loop {
        let next = records[number - 1].next();
        count += 1;
        if next == 0 {
            break Ok(count);
        }
        if !leads(records.len(), number, next) {
            break Err(ChainRefusal::WrongNext(number));
        }
        number = next;
    }
}

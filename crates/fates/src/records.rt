// Records: the Data In bytes that the host read, from its calls and their answers.
ghost use Rattle.std.specs.Prelude.{◌≡◌};
ghost use Rattle.std.specs.Iterator.{YieldsFirst, item_count};
ghost use Rattle.registers.specs.Calls.{call_of};
ghost use Rattle.account.specs.Runs.{listed_reads};
ghost use Rattle.fates.specs.Trials.{reads_byte, record_in, bytes_left, same};

use bus::phase::Phase;
use registers::answer::Answer;
use registers::call::{Call, CallRow};
use registers::register::Register;

// A read of Data, or a DMA read.
fn reads_data(call: CallRow) -> bool
    ensures { result ≡ listed_reads (call_of call) }
{
    match Call::try_from(call) {
        Ok(Call::Read(address)) => Register::at(address) == Some(Register::Data),
        Ok(Call::DmaRead) => true,
        _ => false,
    }
}

// Whether an answer tells a Data In byte read.
fn reads_byte(call: CallRow, answer: Answer) -> bool
    ensures { result ≡ reads_byte call answer }
{
    answer.phase == u8::from(Phase::DataIn) && answer.refusal == 0 && reads_data(call)
}

// A record that has not been read to its end: what is left of the calls and of their answers.
#[derive(Drop)]
struct Record<'a> {
    calls: &'a [CallRow],
    answers: &'a [Answer],
}

// The Data In bytes that the host read, in their order.
impl<'a> Iterator for Record<'a> {
    type Item = u8;

    ghost next_gives = { YieldsFirst bytes_left };

    ghost remaining = { item_count bytes_left };

    // Inlined, since two records are read side by side.
    #[tactic(auto, using(crate::proofs::Reading::without_answers))]
    #[inline(always)]
    fn next(&mut self) -> Option<u8> {
        while let ([call, calls @ ..], [answer, answers @ ..]) = (self.calls, self.answers) {
            self.calls = calls;
            self.answers = answers;
            if reads_byte(*call, *answer) {
                return Some(answer.value);
            }
        }
        None
    }
}

// Whether two records are equal: the Data In bytes read by two lists of calls, in their order. They are read side by side: the end
// of the one has to be the end of the other.
pub fn same_record(
    calls: &[CallRow],
    answers: &[Answer],
    other_calls: &[CallRow],
    other_answers: &[Answer],
) -> bool
    ensures { result ≡ same (record_in calls.now answers.now) (record_in other_calls.now other_answers.now) }
{
    let mut record = Record { calls, answers };
    let mut other = Record {
        calls: other_calls,
        answers: other_answers,
    };
    while let Some(byte) = record.next() {
        match other.next() {
            Some(other_byte) if other_byte == byte => {}
            _ => return false,
        }
    }
    other.next().is_none()
}

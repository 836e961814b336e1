// Records: rows whose numbers make sense.
ghost use Rattle.std.specs.Prelude.{◌≡◌, ◌≤◌};
ghost use Rattle.std.specs.Result.{result_map_both};
ghost use Rattle.script.specs.Records.{made, wish_of, Reads};

use super::refusal::RecordRefusal;
use super::row::Row;
use bus::address::IdByte;
use bus::parity::Parity;
use bus::phase::Phase;
use bus::wish::Wish;

// A row that can be played: it has a kind, a phase and a parity that exist. It is no enum of its own, which would be no plainer:
// the wish is the enum, and a record shows that a row has one.
#[derive(Clone, Copy, Debug, PartialEq, Eq)]
pub struct Record {
    row: Row,
    ghost kind: { row.kind ≤ 4 },
    ghost phase: { row.phase ≤ 7 },
    ghost parity: { row.parity ≤ 1 },
}

// The record of a row, or the first reason why there is none.
impl TryFrom<Row> for Record {
    type Error = RecordRefusal;

    ghost try_from_gives = { λ row made_of. result_map_both (λ x. x.row) (λ e. e) made_of ≡ made row };

    fn try_from(row: Row) -> Result<Record, RecordRefusal> {
        if row.kind > 4 {
            return Err(RecordRefusal::Kind);
        }
        if row.phase > 7 {
            return Err(RecordRefusal::Phase);
        }
        if row.parity > 1 {
            return Err(RecordRefusal::Parity);
        }
        Ok(Record { row })
    }
}

impl Record {
    // The wish that the record is played as.
    #[tactic(auto, using(crate::proofs::Reading::is_wish, crate::proofs::Reading::reads_as))]
    pub fn wish(self) -> Wish
        ensures value { result ≡ wish_of self.row }
        ensures numbers { Reads self.row result }
    {
        let phase = Phase::try_from(self.row.phase).unwrap();
        let parity = Parity::try_from(self.row.parity).unwrap();
        match self.row.kind {
            0 => Wish::Off,
            1 => Wish::Back(IdByte::new(self.row.byte), parity),
            2 => Wish::Hold(phase),
            3 => Wish::req(phase, self.row.byte, parity),
            _ => Wish::Go,
        }
    }
}

// The plainest initiator: it deals with one wish after the other, and never hurries.
ghost use Rattle.std.specs.Prelude.{◌≡◌};
ghost use Rattle.bus.specs.Courses.{attended, TakenOrWaiting};

use super::station::Station;
use super::wish::Wish;

// Deals with the present wish, which it answers. A station that is Off is chosen, with ATN off; any other is told,
// and where it asks for a byte it is sent this one. Whatever calls follow, each Data In byte that waited or joins
// is taken once and in order, or waits.
pub fn attend<S: Station>(station: &mut S, sent: u8) -> Wish
    ensures value { result ≡ S.meaning.wants station.old }
    ensures after { station.new ≡ attended S.meaning station.old sent }
    ensures kept { TakenOrWaiting S.meaning station.old }
{
    deal(station, sent)
}

fn deal<S: Station>(station: &mut S, sent: u8) -> Wish
    ensures value { result ≡ S.meaning.wants station.old }
    ensures after { station.new ≡ attended S.meaning station.old sent }
{
    let wish = station.wish();
    if wish.is_off() {
        let own = station.address();
        let _ = station.chosen(own, false);
    } else if wish.takes_byte() {
        station.told(sent);
    } else {
        station.told(0);
    }
    wish
}

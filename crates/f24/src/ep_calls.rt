// The call of the library that judges records of the F24 EP form of public bodies, which have nothing in common with those of a flow.
ghost use Rattle.std.specs.Prelude.{◌≡◌};
ghost use Rattle.f24.specs.LinkedEp.{ep_code, ep_room};

use crate::NO_ROOM;

// How many numbers the answer needs room for.
const EP_ROOM: usize = 2;

// Judges the records M and V of the form. The answer is the number of M and the sum of their totals.
pub fn f24_ep_judge(records: &[u8], answer: &mut [u64]) -> u64
    ensures { (result ≡ ep_code records.now answer.old)
        × (answer.new ≡ ep_room records.now answer.old) }
{
    if answer.len() < EP_ROOM {
        return NO_ROOM;
    }
    match ep::ep_judge(records) {
        Ok(payments) => {
            state::put(answer, &[payments.count, payments.sum]);
            0
        }
        Err(why) => answers::put_refusal(answer, why),
    }
}

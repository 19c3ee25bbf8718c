// The export that judges records of the F24 EP form of public bodies, which have nothing in common with those of a flow.
ghost use Rattle.std.specs.Prelude.{◌≡◌};
ghost use Rattle.f24.specs.LinkedEp.{ep_code, ep_room};

// Judges the records M and V of the form. The answer is the number of M and the sum of their totals.
#[unsafe(no_mangle)]
pub extern "C" fn f24_ep_judge(records: &[u8], answer: &mut [u64]) -> u64
    ensures { (result ≡ ep_code records.now answer.old)
        × (answer.new ≡ ep_room records.now answer.old) }
{
    f24::ep_calls::f24_ep_judge(records, answer)
}

// A flow written from a working sheet: what is written is accepted, and carries the sheet's records.
#![tactic(auto)]

ghost use Rattle.std.specs.Prelude.{◌≡◌, ◌≤◌, length};
ghost use Rattle.rules.specs.State.{start_state};
ghost use Rattle.judge.specs.Flow.{records_of};
ghost use Rattle.judge.specs.Plain.{Whole};
ghost use Rattle.rebalance.specs.Rebalance.{rebalanced, flat};
ghost use Rattle.write.specs.Writing.{writing_of, room_after, room_with};
ghost use Rattle.write.specs.Settling.{settled_of};

use layout::Flow;
use lenient::Misfit;
use refusal::Refusal;

// Judges the records that were put together and, where nothing speaks against it, works out what is stored and copies the flow into the room.
fn settle(flow: &mut [u8], misfit: Option<Misfit>, room: &mut [u8]) -> Result<usize, Refusal>
    requires { Whole flow.old × (length flow.old ≤ length room.old) }
    ensures { (result ≡ settled_of flow.old misfit)
        × (room.new ≡ room_with result (flat (rebalanced start_state (records_of flow.old))) room.old) }
{
    lenient::judge_kept(flow, misfit)?;
    if rebalance::survey(flow).fits {
        rebalance::rebalance(flow);
        text::put_part(room, 0, flow);
        return Ok(flow.len());
    }
    Err(Refusal::NO_FIT)
}

// Writes the flow of a sheet into the room, and answers its length, or the refusal. The records are put together in memory of the call's own, so that a refusal leaves the room as it came.
pub fn write(sheet: &[u8], room: &mut [u8]) -> Result<usize, Refusal>
    ensures { (result ≡ writing_of sheet.now room.old) × (room.new ≡ room_after sheet.now room.old) }
{
    let mut flow = [0u8; Flow::MOST_BYTES];
    let Some(end) = sheet::read_sheet(sheet, &mut flow) else {
        return Err(Refusal::NO_SHEET);
    };
    let count = end.count;
    // The room is divided, since a product of any count could wrap.
    if room.len() / Flow::RECORD < count {
        return Err(Refusal::SHORT_ROOM);
    }
    if Flow::MOST_RECORDS < count {
        return Err(Refusal::LONG_FLOW);
    }
    settle(&mut flow[..count * Flow::RECORD], end.misfit, room)
}

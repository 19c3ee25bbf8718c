// One line of a flow, named by its delega's number, its subtype and its place in the section.
#![tactic(auto)]

ghost use Rattle.std.specs.Prelude.{◌≡◌, ◌<◌, ◌≤◌, length};
ghost use Rattle.order.specs.Stages.{stage_at, at_start};
ghost use Rattle.judge.specs.Flow.{records_of};
ghost use Rattle.judge.specs.Part.{LiesAt};
ghost use Rattle.find.specs.Line.{is_line, line_from, numbered, found_in};
ghost use Rattle.find.specs.Part.{part_start, part_of};

use layout::{Flow, Kind};
use order::Stage;
use refusal::Refusal;

// A record of this kind, at this stage of the delega opened last, is the line that is asked for.
fn is_line(delega: u64, section: usize, nth: u64, at: Stage, opened: u64, kind: Kind) -> bool
    requires { at.lines < 1000 }
    ensures { result ≡ is_line delega section nth at opened kind }
{
    matches!(kind, Kind::Line(s) if s == section) && opened == delega && at.lines + 1 == nth
}

// The number of the line's record in a flow of at most 546 records, or none where there is no such line.
fn line_in(flow: &[u8], delega: u64, section: usize, nth: u64) -> Option<usize>
    requires { length flow.now ≤ 65520 }
    ensures { result ≡ numbered (line_from delega section nth (stage_at at_start 0 0) 0 0 (records_of flow.now)) }
{
    let mut at = Stage {
        phase: Stage::START,
        section: 0,
        lines: 0,
    };
    let mut opened: u64 = 0;
    for (k, rec) in flow.chunks_exact(Flow::RECORD).enumerate() {
        let kind = records::kind_in(rec);
        if is_line(delega, section, nth, at, opened, kind) {
            return Some(k + 1);
        }
        at = order::next_stage(at, kind);
        opened = rules::next_deleghe(opened, kind);
    }
    None
}

// The number of the line's record, counted from 1, or the refusal. The flow is judged first, and its refusal is handed on.
pub fn find(flow: &[u8], delega: u64, subtype: u64, nth: u64) -> Result<usize, Refusal>
    ensures { result ≡ found_in flow.now delega subtype nth }
{
    judge::judge(flow).verdict?;
    let Kind::Line(section) = layout::section_kind(subtype) else {
        return Err(Refusal::NO_SUCH_LINE);
    };
    line_in(flow, delega, section, nth).ok_or(Refusal::NO_SUCH_LINE)
}

// The record that was found, within the caller's own buffer; an empty part with a refusal, and where the flow has no such record.
pub fn part_of(flow: &[u8], found: Result<usize, Refusal>) -> &[u8]
    ensures { LiesAt flow.entry (part_of flow.now found) (part_start flow.now found) result }
{
    match found {
        Ok(k) => judge::nth_record(flow, k),
        Err(_) => &flow[0..0],
    }
}

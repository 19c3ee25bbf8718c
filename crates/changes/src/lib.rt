// The fields in which a flow differs from its rebalancing, listed by record and start.
#![tactic(auto)]

ghost use Rattle.std.specs.Prelude.{◌≡◌, [], ◌∷◌, ◌+◌, ◌≤◌, length};
ghost use Rattle.layout.specs.Kinds.{kind_in};
ghost use Rattle.layout.specs.Fields.{listed};
ghost use Rattle.judge.specs.Flow.{records_of};
ghost use Rattle.rebalance.specs.Places.{balance_columns};
ghost use Rattle.changes.specs.Changes.{written_fields, place, changed_in, changed_from};
ghost use Rattle.changes.specs.Inner.{put_place, put_places, Pair, Beside};

use layout::{Field, Fields, Flow, Kind};

// The totals of a balance record, where its section has them, its sign and its balance.
fn balance_fields(s: usize) -> Fields
    ensures { result ≡ listed (balance_columns s) }
{
    let section = layout::section_at(s);
    let sign = Field {
        start: section.sign,
        end: section.sign + 1,
    };
    let balance = layout::amount_at(section.balance);
    if section.totals {
        let debit = layout::amount_at(section.total_debit);
        let credit = layout::amount_at(section.total_credit);
        return layout::listed(&[debit, credit, sign, balance]);
    }
    layout::listed(&[sign, balance])
}

// The fields that rebalancing writes in a record of a kind, in the order of position.
fn written_fields(k: Kind) -> Fields
    ensures { result ≡ listed (written_fields k) }
{
    match k {
        Kind::Balance(s) => balance_fields(s),
        Kind::Payment => layout::listed(&[layout::FINAL_BALANCE]),
        Kind::Tail => layout::listed(&[
            layout::TAIL_DELEGHE,
            layout::TAIL_SUM,
            layout::TAIL_RECORDS,
        ]),
        _ => layout::listed(&[]),
    }
}

// Writes record and start of a field as the n-th pair of a list, counted from 0, where it has that pair.
fn put_place(list: &mut [u64], n: usize, k: usize, start: usize)
    ensures { list.new ≡ put_place n (place k start) list.old }
{
    if n < list.len() / 2 {
        list[2 * n] = k as u64;
        list[2 * n + 1] = start as u64;
    }
}

// Lists a field of the k-th record where its bytes differ, behind n others, so far as there is room. The answer is how many there are then.
fn list_field(old: &[u8], new: &[u8], field: Field, k: usize, list: &mut [u64], n: usize) -> usize
    requires { Pair old.now new.now k × (field.start ≤ field.end) × (field.end ≤ 120) × (n ≤ 4000) }
    ensures { (result ≡ n + length (changed_in k (field ∷ []) old.now new.now))
        × (list.new ≡ put_places n (changed_in k (field ∷ []) old.now new.now) list.old) }
{
    let start = field.start;
    let end = field.end;
    if amounts::same_bytes(&old[start..end], &new[start..end]) {
        return n;
    }
    put_place(list, n, k, start + 1);
    n + 1
}

// The same of all fields of the record that rebalancing writes.
fn list_record(old: &[u8], new: &[u8], k: usize, list: &mut [u64], n: usize) -> usize
    requires { Pair old.now new.now k × (n ≤ 3000) }
    ensures { (result ≡ n + length (changed_in k (written_fields (kind_in old.now)) old.now new.now))
        × (list.new ≡ put_places n (changed_in k (written_fields (kind_in old.now)) old.now new.now) list.old) }
{
    let fields = written_fields(records::kind_in(old));
    let mut listed = n;
    for field in &fields.fields[..fields.count] {
        listed = list_field(old, new, *field, k, list, listed);
    }
    listed
}

// Lists the fields of a flow that changed, so far as there is room. The answer is how many there are.
pub fn list_changes(old: &[u8], new: &[u8], list: &mut [u64]) -> usize
    requires { Beside old.now new.now }
    ensures { (result ≡ length (changed_from 0 (records_of old.now) (records_of new.now)))
        × (list.new ≡ put_places 0 (changed_from 0 (records_of old.now) (records_of new.now)) list.old) }
{
    let mut n: usize = 0;
    for k in 0..old.len() / Flow::RECORD {
        let at = k * Flow::RECORD;
        n = list_record(
            records::record_at(old, at),
            records::record_at(new, at),
            k + 1,
            list,
            n,
        );
    }
    n
}

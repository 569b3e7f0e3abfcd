// A record put into a store at its place: the records after it move up.
ghost use Rattle.std.specs.Prelude.{◌≡◌};
ghost use Rattle.records.specs.Records.{now_of, records_of, store_of};
ghost use Rattle.store.specs.Inserting.{inserted};
ghost use Rattle.store.specs.Needs.{InsertAsked};

use super::finding::place_of;
use super::moving::move_up;
use super::writing::{set_held, write_record};
use records::{RECORD_WORDS, Record, held_of};

#[tactic(auto, using(records::proofs::PlacesLaws::store_room, records::proofs::PlacesLaws::within))]
pub fn insert(store: &mut [i32], r: Record)
    requires { InsertAsked store.old r }
    ensures { store.new ≡ store_of (now_of store.old) (inserted r (records_of store.old)) }
{
    let n = held_of(store);
    let start = RECORD_WORDS * place_of(store, r) + RECORD_WORDS;
    let end = RECORD_WORDS * n + RECORD_WORDS;
    move_up(store, start, end);
    write_record(store, start, r);
    set_held(store, n + 1);
}

// The library that the benchmark links: its export calls the function of its name in the crate repeating and promises the same.
#![tactic(auto)]

ghost use Rattle.std.specs.Prelude.{◌≡◌};
ghost use Rattle.records.specs.Words.{are_sound};
ghost use Rattle.ledger.specs.Calls.{ask_of};
ghost use Rattle.repeating.specs.Turns.{accepted_in, asked_once, stores_in, part_at, all_sound, asked_each, asked_over, asked_in_turn, asks_made};
ghost use Rattle.repeating.specs.Turns.{HasStores, HasStore, CanAskOnce, CanAskEach, CanAskOver, Leaves};

// The ask on each of the stores in turn, and that so many times. The stores stand one after the other, and so do their tables. Nothing is done and 0
// given back where the two lengths do not fit each other, for more than 64 stores or 1,000,000 turns, or where a store is not sound.
#[unsafe(no_mangle)]
pub extern "C" fn float_index_asks_in_turn(
    stores: &[i32],
    tables: &[i16],
    list: &mut [u16],
    turns: usize,
    method: i32,
    asked: i32,
    low_x: i32,
    low_y: i32,
    high_x: i32,
    high_y: i32,
) -> usize
    ensures { Leaves (asks_made stores.now tables.now (ask_of method asked low_x low_y high_x high_y) turns list.old) result list.new }
{
    repeating::float_index_asks_in_turn(
        stores, tables, list, turns, method, asked, low_x, low_y, high_x, high_y,
    )
}

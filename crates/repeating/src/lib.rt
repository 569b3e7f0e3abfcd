// Asks over words known to be sound, on several stores in turn: for the benchmark alone, which takes from it the time of an ask without the soundness
// test. No product call. What is promised: how many asks are accepted and the list at exit are those of the definition, for any numbers and buffers.
#![tactic(auto)]

ghost use Rattle.std.specs.Prelude.{◌≡◌};
ghost use Rattle.records.specs.Words.{are_sound};
ghost use Rattle.ledger.specs.Calls.{ask_of};
ghost use Rattle.repeating.specs.Turns.{accepted_in, asked_once, stores_in, part_at, all_sound, asked_each, asked_over, asked_in_turn, asks_made};
ghost use Rattle.repeating.specs.Turns.{HasStores, HasStore, CanAskOnce, CanAskEach, CanAskOver, Leaves};

use ledger::{Answer, Ask};
use records::STORE_WORDS;
use rows::TABLE_WORDS;

// The most stores and the most turns.
const STORES: usize = 64;

const TURNS: usize = 1000000;

// How many stores and tables there are in so many words: none where the two numbers do not fit each other, and then C
// is told that no ask was made.
fn stores_in(store_words: usize, table_words: usize) -> usize
    ensures { result ≡ stores_in store_words table_words }
{
    let n = store_words / STORE_WORDS;
    if n <= STORES && STORE_WORDS * n == store_words && TABLE_WORDS * n == table_words {
        n
    } else {
        0
    }
}

fn accepted_in(answer: Answer) -> usize
    ensures { result ≡ accepted_in answer }
{
    match answer {
        Answer::Accepted(_) | Answer::Listed(_, _, _, _) => 1,
        Answer::Refused(_) => 0,
    }
}

// So many stores, one after the other, and their tables so too.
#[derive(Clone, Copy)]
struct Stores<'a> {
    stores: &'a [i32],
    tables: &'a [i16],
    count: usize,
}

impl<'a> Stores<'a> {
    // The store with the number k.
    fn store(self, k: usize) -> &'a [i32]
        requires { HasStore self.stores.now self.tables.now k }
        ensures { result.now ≡ (part_at self.entry.stores.now self.entry.tables.now k).store }
    {
        let start = STORE_WORDS * k;
        &self.stores[start..start + STORE_WORDS]
    }

    // Its table.
    fn table(self, k: usize) -> &'a [i16]
        requires { HasStore self.stores.now self.tables.now k }
        ensures { result.now ≡ (part_at self.entry.stores.now self.entry.tables.now k).table }
    {
        let start = TABLE_WORDS * k;
        &self.tables[start..start + TABLE_WORDS]
    }

    fn is_sound_at(self, k: usize) -> bool
        requires { HasStore self.stores.now self.tables.now k }
        ensures { result ≡ are_sound (part_at self.entry.stores.now self.entry.tables.now k) }
    {
        records::soundness::is_sound(self.store(k), self.table(k))
    }

    fn all_sound(self) -> bool
        requires { HasStores self.stores.now self.tables.now self.count }
        ensures { result ≡ all_sound self.entry.stores.now self.entry.tables.now self.entry.count }
    {
        (0..self.count).all(|k| self.is_sound_at(k))
    }

    fn ask_once(self, list: &mut [u16], k: usize, ask: Ask) -> usize
        requires { CanAskOnce self.stores.now self.tables.now k }
        ensures { Leaves (asked_once (part_at self.entry.stores.now self.entry.tables.now k) ask list.old) result list.new }
    {
        accepted_in(engine::sound::ask(self.store(k), self.table(k), list, ask))
    }

    fn ask_each(self, list: &mut [u16], ask: Ask) -> usize
        requires { CanAskEach self.stores.now self.tables.now self.count }
        ensures { Leaves (asked_each self.entry.stores.now self.entry.tables.now ask list.old self.entry.count) result list.new }
    {
        let mut accepted = 0;
        for k in 0..self.count {
            accepted += self.ask_once(list, k, ask);
        }
        accepted
    }

    fn ask_over(self, list: &mut [u16], turns: usize, ask: Ask) -> usize
        requires { CanAskOver self.stores.now self.tables.now self.count turns }
        ensures { Leaves (asked_over self.entry.stores.now self.entry.tables.now ask list.old self.entry.count turns) result list.new }
    {
        let mut accepted = 0;
        for _ in 0..turns {
            accepted += self.ask_each(list, ask);
        }
        accepted
    }

    #[tactic(auto, unfolding(crate::specs::Turns::asked_in_turn))]
    fn ask_in_turn(self, list: &mut [u16], turns: usize, ask: Ask) -> usize
        requires { HasStores self.stores.now self.tables.now self.count }
        ensures { Leaves (asked_in_turn self.entry.stores.now self.entry.tables.now ask list.old self.entry.count turns) result list.new }
    {
        if TURNS < turns || !self.all_sound() {
            return 0;
        }
        self.ask_over(list, turns, ask)
    }
}

// The ask on each of the stores in turn, and that so many times. The stores stand one after the other, and so do their tables. Nothing is done and 0
// given back where the two lengths do not fit each other, for more than 64 stores or 1,000,000 turns, or where a store is not sound.
pub fn float_index_asks_in_turn(
    stores: &[i32],
    tables: &[i16],
    list: &mut [u16],
    turns: usize,
    method: i32,
    asked: i32,
    low_x: i32,
    low_y: i32,
    high_x: i32,
    high_y: i32,
) -> usize
    ensures { Leaves (asks_made stores.now tables.now (ask_of method asked low_x low_y high_x high_y) turns list.old) result list.new }
{
    let lent = Stores {
        stores,
        tables,
        count: stores_in(stores.len(), tables.len()),
    };
    lent.ask_in_turn(
        list,
        turns,
        Ask::of(method, asked, low_x, low_y, high_x, high_y),
    )
}

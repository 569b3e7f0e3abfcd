// The work of an ask over buffers known to be sound: in each live phase cells are chosen and read, and the readings are summed. The answer is built
// from that sum. Store and table stay two references: crate words says why.
#![tactic(auto)]

ghost use Rattle.std.specs.Prelude.{◌≡◌, true, pos};
ghost use Rattle.ints.specs.Whole.{up, between};
ghost use Rattle.rows.specs.Phases.{slot_of};
ghost use Rattle.methods.specs.Aims.{aim_in};
ghost use Rattle.methods.specs.Numbered.{number_of};
ghost use Rattle.choosing.specs.Choose.{ChosenBy};
ghost use Rattle.records.specs.Records.{records_of};
ghost use Rattle.records.specs.Words.{words};
ghost use Rattle.ledger.specs.declared.Answer.TheVariants.{Listed};
ghost use Rattle.asking.specs.Asking.{phases_now, GivesList};
ghost use Rattle.asking.specs.Counted.{CanAsk, CanAskAll, CanAskIn, settled_by_room, CanChooseIn, CanReadIn, ReadIn, CanAdd, CountedTogether, CountedIn, CanAskAlso, CountedAlso, CountedOver};

use grid::Query;
use ledger::{Answer, Ask, Refusal};
use methods::Method;
use reading::Reading;
use std::ops::Add;

// Places for the ids that an ask lists: each live phase lists no more floats than can be held, and reading wants one place more.
const IDS: usize = rows::SLOTS * records::CAPACITY + 1;

// What asking in a phase, or in several, gives back: what was read there, and the rounds of choosing. How many cells were read is only in the reading.
#[derive(Clone, Copy)]
pub struct Counts {
    pub read: Reading,
    pub rounds: usize,
}

impl Counts {
    // The answer of an accepted ask: its counts are those of the readings.
    fn answer(self) -> Answer
        ensures { result ≡ Listed self.read.listed self.read.cells self.read.useful self.rounds }
    {
        Answer::Listed(
            self.read.ids_listed(),
            self.read.cells_read(),
            self.read.useful_cells(),
            self.rounds,
        )
    }
}

impl Add for Counts {
    type Output = Counts;

    ghost can_add = { CanAdd };

    ghost add_gives = { CountedTogether };

    fn add(self, other: Counts) -> Counts {
        Counts {
            read: self.read + other.read,
            rounds: self.rounds + other.rounds,
        }
    }
}

// The method of an ask whose number passed its check.
fn method_of(ask: Ask) -> Method
    requires { between (pos 0) (pos 3) ask.method ≡ true }
    ensures { number_of result ≡ up ask.method }
{
    choosing::choose::method_of(ask.method as usize)
}

// Cells chosen in a live phase by the rows of its slot, as marks, and the rounds of the choice.
fn choose_in(table: &[i16], p: usize, ask: Ask, marks: &mut [u8; grid::CELLS]) -> usize
    requires { CanChooseIn table.now ask p }
    ensures { ChosenBy (up ask.method) table.now (slot_of p) (aim_in p ask.query) marks.new result }
{
    let slot = rows::slot_of(p);
    let view = reaching::view_of(ask.query, p);
    choosing::choose::choose_by(table, slot, method_of(ask), view, marks)
}

// Any set of cells of a live phase read, the ids listed to the front of `ids`.
fn read_in(
    store: &[i32],
    p: usize,
    query: Query,
    marks: &[u8; grid::CELLS],
    ids: &mut [u16],
) -> Reading
    requires { CanReadIn store.now query ids.old }
    ensures { ReadIn marks.now p query (records_of store.now) ids.new result }
{
    reading::read_cells(store, rows::slot_of(p), marks, query, ids)
}

// An ask in one live phase: cells chosen by the rows of its slot, and read.
fn ask_in(store: &[i32], table: &[i16], p: usize, ask: Ask, ids: &mut [u16]) -> Counts
    requires { CanAskIn (words store.now table.now) ask p ids.old }
    ensures { CountedIn (words store.now table.now) ask p ids.new result }
{
    let mut marks = [0u8; grid::CELLS];
    let rounds = choose_in(table, p, ask, &mut marks);
    let read = read_in(store, p, ask.query, &marks, ids);
    Counts { read, rounds }
}

// An ask in one live phase more: the ids that it lists stand behind those that were listed before.
fn ask_also_in(
    store: &[i32],
    table: &[i16],
    p: usize,
    ask: Ask,
    before: Counts,
    ids: &mut [u16],
) -> Counts
    requires { CanAskAlso (words store.now table.now) ask p before ids.old }
    ensures { CountedAlso (words store.now table.now) ask p before ids.old ids.new result }
{
    let listed = before.read.ids_listed();
    before + ask_in(store, table, p, ask, &mut ids[listed..])
}

// An ask in each live phase, newest first.
fn ask_in_all(store: &[i32], table: &[i16], ask: Ask, ids: &mut [u16]) -> Counts
    requires { CanAskAll (words store.now table.now) ask ids.old }
    ensures { CountedOver (words store.now table.now) ask (phases_now (words store.now table.now) ask) ids.new result }
{
    let newest = rows::phase_of(records::now_of(store));
    let mut counts = ask_in(store, table, newest, ask, ids);
    for p in (newest.saturating_sub(rows::SLOTS - 1)..newest).rev() {
        counts = ask_also_in(store, table, p, ask, counts, ids);
    }
    counts
}

// An ask whose checks up to 4 are passed, with places for the ids it lists. Nothing is written to the list before it is known to have room.
fn ask_with(store: &[i32], table: &[i16], list: &mut [u16], ask: Ask, ids: &mut [u16]) -> Answer
    requires { CanAskAll (words store.now table.now) ask ids.old }
    ensures { GivesList (settled_by_room (words store.now table.now) ask list.old) result list.new }
{
    let counts = ask_in_all(store, table, ask, ids);
    let needed = counts.read.ids_listed();
    if list.len() < needed {
        return Answer::Refused(Refusal::ListTooShort(needed));
    }
    sorting::rising(&ids[..needed], list);
    counts.answer()
}

// An ask whose checks up to 4 are passed.
pub fn ask_sound(store: &[i32], table: &[i16], list: &mut [u16], ask: Ask) -> Answer
    requires { CanAsk (words store.now table.now) ask }
    ensures { GivesList (settled_by_room (words store.now table.now) ask list.old) result list.new }
{
    let mut ids = [0u16; IDS];
    ask_with(store, table, list, ask, &mut ids)
}

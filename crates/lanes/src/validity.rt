// Whether every row of a table is valid, a block of 8 rows at a time. Which rows are empty goes from row to row without a pattern, and a branch on it would
// be guessed wrong. So a block is compared with an empty one as a whole; where it differs, all its 32 places are judged as if a row started at each, in
// lanes, and every fourth lane counts.
ghost use Rattle.std.specs.Prelude.{◌≡◌, ◌/◌, ◌%◌, length};
ghost use Rattle.rows.specs.Table.{row_words, table_words, empty_rows, valid_rows, valid_table};
ghost use Rattle.lanes.specs.Validity.{block_rows, places, place_words, same_up_to, Judged, row_lanes_valid, CanJudgeBlock};

use rows::{ROW_WORDS, Row, TABLE_WORDS};

// The rows of a block, and its places, which are its numbers.
const BLOCK_ROWS: usize = 8;

const PLACES: usize = ROW_WORDS * BLOCK_ROWS;

// The blocks judged in lanes, and their numbers: all but the last, behind whose last place are no three numbers more.
const BLOCKS_IN_LANES: usize = TABLE_WORDS / PLACES - 1;

const WORDS_IN_LANES: usize = PLACES * BLOCKS_IN_LANES;

// The numbers that a block's places take in: a row that starts at the last one ends three numbers on.
const PLACE_WORDS: usize = PLACES + ROW_WORDS - 1;

// Each place of a block judged as if a row started there, in its lane.
fn judged_places(words: &[i16]) -> [bool; PLACES]
    requires { length words.now ≡ place_words }
    ensures { Judged words.now result }
{
    let mut valid = [false; PLACES];
    for j in 0..PLACES {
        valid[j] = Row::read_from(words, j).is_valid();
    }
    valid
}

// Whether the lanes in which rows start are all valid.
fn row_lanes_valid(valid: &[bool; PLACES]) -> bool
    ensures { result ≡ row_lanes_valid valid.now }
{
    let mut all = true;
    for j in 0..BLOCK_ROWS {
        all = all & valid[ROW_WORDS * j];
    }
    all
}

// A block of empty rows.
fn empty_block() -> [i16; PLACES]
    ensures { result ≡ empty_rows block_rows }
{
    let mut block = [0; PLACES];
    rows::empty_rows(&mut block);
    block
}

// Whether some words begin with a block's numbers, without a branch.
fn begins_with(words: &[i16], block: &[i16; PLACES]) -> bool
    requires { length words.now ≡ place_words }
    ensures { result ≡ same_up_to places words.now block.now }
{
    let mut same = true;
    for j in 0..PLACES {
        same = same & (words[j] == block[j]);
    }
    same
}

// Whether the rows of a block are valid.
fn block_valid(words: &[i16], empty: &[i16; PLACES]) -> bool
    requires { CanJudgeBlock words.now empty.now }
    ensures { result ≡ valid_rows block_rows words.now }
{
    begins_with(words, empty) || row_lanes_valid(&judged_places(words))
}

// Whether the rows of some words are valid, one by one.
fn rows_valid(words: &[i16]) -> bool
    requires { length words.now % row_words ≡ 0 }
    ensures { result ≡ valid_rows (length words.now / row_words) words.now }
{
    for i in 0..words.len() / ROW_WORDS {
        if !Row::read_from(words, ROW_WORDS * i).is_valid() {
            return false;
        }
    }
    true
}

// Whether every row of the table is valid, in one pass.
pub fn all_valid(table: &[i16]) -> bool
    requires { length table.now ≡ table_words }
    ensures { result ≡ valid_table table.now }
{
    let empty = empty_block();
    for block in 0..BLOCKS_IN_LANES {
        let start = PLACES * block;
        if !block_valid(&table[start..start + PLACE_WORDS], &empty) {
            return false;
        }
    }
    rows_valid(&table[WORDS_IN_LANES..])
}

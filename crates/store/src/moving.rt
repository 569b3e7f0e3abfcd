// Words moved by one record, over the place of one or from it. By index, and in a part of its own for the words that are moved: of such a loop the compiler makes one call
// that moves memory. By the library's `copy_within`, which goes by any distance and stays a loop, a report to the replay program took 1.4 times as long.
ghost use Rattle.std.specs.Prelude.{◌≡◌, ◌+◌, ◌-◌, ◌≤◌, length};
ghost use Rattle.std.specs.List.{copy_within};
ghost use Rattle.records.specs.Records.{record_words};

use records::RECORD_WORDS;

// All but the first record's words, moved down to the first.
fn close_front(words: &mut [i32])
    requires { record_words ≤ length words.old }
    ensures { words.new ≡ copy_within words.old record_words (length words.old) 0 }
{
    for j in 0..words.len() - RECORD_WORDS {
        words[j] = words[RECORD_WORDS + j];
    }
}

// All but the last record's words, moved up to the last: from the last to the first, so that none is written over before it is read.
fn open_front(words: &mut [i32])
    requires { record_words ≤ length words.old }
    ensures { words.new ≡ copy_within words.old 0 (length words.old - record_words) record_words }
{
    for j in (0..words.len() - RECORD_WORDS).rev() {
        words[RECORD_WORDS + j] = words[j];
    }
}

// The words from one record behind `start` up to `end`, moved down to it.
pub(super) fn move_down(words: &mut [i32], start: usize, end: usize)
    requires ordered { start + record_words ≤ end }
    requires within { end ≤ length words.old }
    ensures len { length words.new ≡ length words.old }
    ensures after { words.new ≡ copy_within words.old (start + record_words) end start }
{
    close_front(&mut words[start..end]);
}

// The words from `start` up to `end`, moved up by one record.
pub(super) fn move_up(words: &mut [i32], start: usize, end: usize)
    requires ordered { start ≤ end }
    requires within { end + record_words ≤ length words.old }
    ensures len { length words.new ≡ length words.old }
    ensures after { words.new ≡ copy_within words.old start end (start + record_words) }
{
    open_front(&mut words[start..end + RECORD_WORDS]);
}

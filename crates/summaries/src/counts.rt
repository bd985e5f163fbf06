//! How often each first word stands among the lines of a text.
ghost use Rattle.std.specs.Prelude.{◌≡◌, ◌+◌, ◌<◌, ◌^◌, ◌++◌, decimal, flat_map, map, position, unwrap_or, IfOk, OnOk};
ghost use Rattle.std.specs.BTreeMap.{get, IsOrdered};
ghost use Rattle.std.specs.Cmp.Lexicographic.{slice_cmp};
ghost use Rattle.std.specs.Ordering.{nat_cmp};
ghost use Rattle.summaries.specs.Counts.{first_word, first_words, is_space, row_text, CountsOneMore, IsTally};

use itoa::Buffer;
use lists::Bytes;
use std::alloc::{AllocError, Global};
use std::collections::BTreeMap;

/// Words with how often each occurs, in byte order.
pub type Tally = BTreeMap<Bytes, u64>;

/// Where the first space of a line stands.
fn first_space(line: &[u8]) -> Option<usize>
    ensures { result ≡ position is_space line.now }
{
    line.iter().position(|byte| *byte == b' ')
}

/// What stands before the first space of a line, or the whole line.
fn first_word(line: &[u8]) -> &[u8]
    ensures { result.now ≡ first_word line.now }
{
    match first_space(line) {
        Some(end) => &line[..end],
        None => line,
    }
}

/// The first words of the lines of a text, some of which may be empty.
pub fn first_words<'a>(alloc: Global, text: &'a [u8]) -> Result<Vec<&'a [u8]>, AllocError>
    ensures { IfOk result (λ words. map (λ w. w.now) words.items ≡ first_words text.now) }
{
    text.split(|byte| *byte == b'\n')
        .map(first_word)
        .collect(alloc)
}

/// Counts a word once more.
fn count(rows: &mut Tally, word: Bytes) -> Result<(), AllocError>
    requires { unwrap_or (get (slice_cmp nat_cmp) rows.old word) 0 + 1 < 2 ^ 64 }
    ensures counts { OnOk result (CountsOneMore rows.old rows.new word) }
    ensures ordered { IsOrdered (slice_cmp nat_cmp) rows.new }
{
    let times = rows.get(&word).copied().unwrap_or(0);
    rows.insert(word, times + 1)?;
    Ok(())
}

/// How often each of these words occurs; an empty one isn't counted.
pub fn tally(alloc: Global, words: &[&[u8]]) -> Result<Tally, AllocError>
    ensures { IfOk result (λ rows. IsTally (map (λ w. w.now) words.now) rows.entries) }
{
    let mut rows = BTreeMap::new(alloc);
    for word in words {
        if !word.is_empty() {
            count(&mut rows, Bytes::of(alloc, word)?)?;
        }
    }
    Ok(rows)
}

/// Adds a number.
pub fn add_number(text: &mut Bytes, number: u64) -> Result<(), AllocError>
    ensures { OnOk result (text.new ≡ text.old ++ decimal number) }
{
    let mut buffer = Buffer::new();
    text.add(buffer.format(number).as_bytes())
}

/// Adds the line of a word and how often it occurs.
fn add_row(text: &mut Bytes, word: &Bytes, times: u64) -> Result<(), AllocError>
    ensures { OnOk result (text.new ≡ text.old ++ row_text (word.now, times)) }
{
    text.add(word.as_slice())?;
    text.push(b' ')?;
    add_number(text, times)?;
    text.push(b'\n')
}

/// Adds the lines of words and how often each occurs.
pub fn add_rows(text: &mut Bytes, rows: &Tally) -> Result<(), AllocError>
    ensures { OnOk result (text.new ≡ text.old ++ flat_map row_text rows.now.entries) }
{
    for (word, times) in rows {
        add_row(text, word, *times)?;
    }
    Ok(())
}

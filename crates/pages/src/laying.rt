// Pages of four words in a pool, and the pages of a snapshot laid in it.
ghost use Rattle.std.specs.Prelude.{◌≡◌, ◌≢◌, ℕ, ◌+◌, ◌^◌, ◌<◌, ◌≤◌, length, slice_index};
ghost use Rattle.paging.specs.Layout.{pages_in, whole};
ghost use Rattle.paging.specs.Pages.{page, named, Kept};
ghost use Rattle.paging.specs.Steps.{StaysBehind, Placed, Laid};
ghost use Rattle.pages.specs.Used.{in_use};

use crate::used::{Row, Used};
use std::array::from_fn;

// The words of a page.
pub(crate) const PAGE: usize = 4;

// The most pages of a pool.
pub(crate) const LARGEST: usize = 1024;

// The pages of a snapshot.
pub(crate) fn pages_in(width: usize) -> usize
    requires { width ≤ 32 }
    ensures { result ≡ pages_in width }
{
    width.div_ceil(PAGE)
}

// A word, or 0 behind the end.
pub(crate) fn word(words: &[u32], place: usize) -> u32
    ensures { result ≡ slice_index words.now place }
{
    words.get(place).copied().unwrap_or(0)
}

// Page i of a snapshot or of a pool, zeros behind its end.
pub(crate) fn page(words: &[u32], i: usize) -> [u32; PAGE]
    requires { i < 2 ^ 16 }
    ensures { result ≡ page words.now i }
{
    from_fn(|k| word(words, PAGE * i + k))
}

// Writes a page.
fn write(pool: &mut [u32], number: u16, content: &[u32; PAGE])
    requires { number < whole (length pool.old) }
    ensures holds { page pool.new number ≡ content.now }
    ensures others { (k : ℕ) → k ≢ number → page pool.new k ≡ page pool.old k }
    ensures behind { StaysBehind pool.old pool.new }
    ensures size { length pool.new ≡ length pool.old }
{
    let start = PAGE * usize::from(number);
    pool[start..start + PAGE].copy_from_slice(content);
}

// The number of a page of these words: one in use, or a page that is not in use, written now.
fn place(used: &Used, pool: &mut [u32], content: &[u32; PAGE]) -> u16
    requires kept { Kept (in_use used.now) pool.old }
    requires room { length (in_use used.now) < whole (length pool.old) }
    requires few { whole (length pool.old) ≤ 1024 }
    ensures { Placed (in_use used.now) content.now pool.old result pool.new }
{
    match used.find(pool, content) {
        Some(known) => known,
        None => {
            let number = used.free((pool.len() / PAGE) as u16).unwrap();
            write(pool, number, content);
            number
        }
    }
}

// The numbers of the pages of these words, each laid in the pool; the pages that the rows name stay.
pub(crate) fn lay(rows: &[Option<Row>], pool: &mut [u32], pages: usize, words: &[u32]) -> Row
    requires narrow { pages ≤ 8 }
    requires kept { Kept (named pages rows.now) pool.old }
    requires room { length (named pages rows.now) + pages ≤ whole (length pool.old) }
    requires few { whole (length pool.old) ≤ 1024 }
    ensures { Laid pages (named pages rows.now) words.now pool.old result pool.new }
{
    let mut row = [0; 8];
    // by index: each page is looked for among those laid before it too
    for i in 0..pages {
        let used = Used {
            rows,
            pages,
            laid: &row[..i],
        };
        row[i] = place(&used, pool, &page(words, i));
    }
    row
}

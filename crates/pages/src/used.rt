// The numbers of the pages in use.
ghost use Rattle.std.specs.Prelude.{◌≡◌, ℕ, ◌+◌, ◌<◌, ◌≤◌, ◌++◌, ◌||◌, false, not, length, drop, slice_index, slice_index_or};
ghost use Rattle.std.specs.List.{find, list_any, range_with_len};
ghost use Rattle.paging.specs.Pages.{page, numbers, named, has, distinct, slot_names, same as same_page};

use crate::laying::{LARGEST, PAGE, word};

// The numbers of a snapshot's pages; page k of the pool has the number k.
pub(crate) type Row = [u16; 8];

// The numbers that the rows of so many pages name, and those of a row that is being laid.
#[derive(Drop)]
pub(crate) struct Used<'r> {
    pub(crate) rows: &'r [Option<Row>],
    pub(crate) pages: usize,
    pub(crate) laid: &'r [u16],
    ghost narrow: { pages ≤ 8 },
}

// Whether page k of the pool has these words.
fn same(pool: &[u32], k: u16, content: &[u32; PAGE]) -> bool
    ensures { result ≡ same_page (page pool.now k) content.now }
{
    let start = PAGE * usize::from(k);
    word(pool, start) == content[0]
        && word(pool, start + 1) == content[1]
        && word(pool, start + 2) == content[2]
        && word(pool, start + 3) == content[3]
}

// The first of these numbers whose page has these words.
fn among(numbers: &[u16], pool: &[u32], content: &[u32; PAGE]) -> Option<u16>
    ensures { result ≡ find (λ k. same_page (page pool.now k) content.now) numbers.now }
{
    numbers.iter().copied().find(|k| same(pool, *k, content))
}

// Marks the pages of these numbers.
fn mark(taken: &mut [bool; LARGEST], numbers: &[u16])
    ensures { (k : ℕ) → k < 1024 → slice_index_or taken.new k false ≡ (slice_index_or taken.old k false || has numbers.now k) }
{
    for number in numbers {
        let k = usize::from(*number);
        if k < LARGEST {
            taken[k] = true;
        }
    }
}

// The first page that is not marked.
fn unmarked(taken: &[bool; LARGEST], whole: u16) -> Option<u16>
    requires { whole ≤ 1024 }
    ensures { result ≡ find (λ k. not (slice_index_or taken.now k false)) (range_with_len 0 whole) }
{
    (0..whole).find(|k| !taken[usize::from(*k)])
}

impl Used<'_> {
    ghost use Rattle.pages.specs.Used.{in_use};

    // Whether a row names page k.
    fn names(&self, row: &Row, k: u16) -> bool
        ensures { result ≡ has (numbers self.now.pages row.now) k }
    {
        row[..self.pages].contains(&k)
    }

    // Whether one of the rows names page k.
    fn one_names(&self, k: u16) -> bool
        ensures { result ≡ list_any (slot_names self.now.pages k) self.now.rows.now }
    {
        // a match: tried as `is_some_and`, of whose closure the proof did not close
        self.rows.iter().any(|slot| match slot {
            Some(row) => self.names(row, k),
            None => false,
        })
    }

    // Whether page k is in use.
    fn has(&self, k: u16) -> bool
        ensures { result ≡ has (in_use self.now) k }
    {
        self.one_names(k) || self.laid.contains(&k)
    }

    // The first page that a row names which has these words.
    fn find_in(&self, row: &Row, pool: &[u32], content: &[u32; PAGE]) -> Option<u16>
        ensures { result ≡ find (λ k. same_page (page pool.now k) content.now) (numbers self.now.pages row.now) }
    {
        among(&row[..self.pages], pool, content)
    }

    // The first page in use that has these words.
    pub(crate) fn find(&self, pool: &[u32], content: &[u32; PAGE]) -> Option<u16>
        ensures { result ≡ find (λ k. same_page (page pool.now k) content.now) (in_use self.now) }
    {
        for slot in self.rows {
            if let Some(row) = slot {
                if let Some(known) = self.find_in(row, pool, content) {
                    return Some(known);
                }
            }
        }
        among(self.laid, pool, content)
    }

    // Marks the pages that a row names.
    fn mark_row(&self, taken: &mut [bool; LARGEST], row: &Row)
        ensures { (k : ℕ) → k < 1024 → slice_index_or taken.new k false ≡ (slice_index_or taken.old k false || has (numbers self.now.pages row.now) k) }
    {
        mark(taken, &row[..self.pages]);
    }

    // The first page that is not in use.
    pub(crate) fn free(&self, whole: u16) -> Option<u16>
        requires { whole ≤ 1024 }
        ensures { result ≡ find (λ k. not (has (in_use self.now) k)) (range_with_len 0 whole) }
    {
        let mut taken = [false; LARGEST];
        for slot in self.rows {
            if let Some(row) = slot {
                self.mark_row(&mut taken, row);
            }
        }
        mark(&mut taken, self.laid);
        unmarked(&taken, whole)
    }

    // Whether number i of a row stands later in it too, or is in use.
    fn has_later(&self, row: &Row, i: usize) -> bool
        requires { i < self.now.pages }
        ensures { result ≡ has (drop (i + 1) (numbers self.now.pages row.now) ++ in_use self.now) (slice_index row.now i) }
    {
        row[i + 1..self.pages].contains(&row[i]) || self.has(row[i])
    }

    // How many numbers of a row stand neither later in it nor among those in use.
    fn last_in(&self, row: &Row) -> usize
        ensures few { result ≤ 8 }
        ensures value { result + distinct (in_use self.now) ≡ distinct (numbers self.now.pages row.now ++ in_use self.now) }
    {
        let mut count = 0;
        for i in 0..self.pages {
            if !self.has_later(row, i) {
                count += 1;
            }
        }
        count
    }

    // How many pages the rows name.
    pub(crate) fn count(&self) -> usize
        requires { length self.now.rows.now ≤ 32 }
        ensures { result ≡ distinct (named self.now.pages self.now.rows.now) }
    {
        let mut count = 0;
        for (j, slot) in self.rows.iter().enumerate() {
            if let Some(row) = slot {
                let later = Used {
                    rows: &self.rows[j + 1..],
                    pages: self.pages,
                    laid: &[],
                };
                count += later.last_in(row);
            }
        }
        count
    }
}

// The plain list of slots, which the stores are tried against.
use terms::Refusal;

// The words of a snapshot.
pub const WIDTH: usize = 6;

// The slots of the list, as many as a store has at most.
pub const MOST: usize = 64;

// A slot's snapshot, if it holds one.
pub type Slot = Option<[u32; WIDTH]>;

// What the list answers to a put, and does.
pub(crate) fn put(plain: &mut [Slot], slot: usize, words: &[u32]) -> Result<(), Refusal> {
    let place = plain.get_mut(slot).ok_or(Refusal::NoSlot)?;
    let words = words.try_into().map_err(|_| Refusal::WrongWidth)?;
    *place = Some(words);
    Ok(())
}

// What the list answers to a get into a buffer of so many words.
pub(crate) fn get(plain: &[Slot], slot: usize, len: usize) -> Result<[u32; WIDTH], Refusal> {
    let held = plain.get(slot).ok_or(Refusal::NoSlot)?;
    if len != WIDTH {
        return Err(Refusal::WrongWidth);
    }
    held.ok_or(Refusal::EmptySlot)
}

// What the list answers to a free, and does.
pub(crate) fn free(plain: &mut [Slot], slot: usize) -> Result<(), Refusal> {
    let place = plain.get_mut(slot).ok_or(Refusal::NoSlot)?;
    place.take().map(|_| ()).ok_or(Refusal::EmptySlot)
}

// The pages of a snapshot of 6 words: the second has 2 words, and zeros behind them.
fn pages(words: &[u32; WIDTH]) -> [[u32; 4]; 2] {
    let [a, b, c, d, e, f] = *words;
    [[a, b, c, d], [e, f, 0, 0]]
}

// Whether a page lies in one of the slots.
fn holds(plain: &[Slot], page: [u32; 4]) -> bool {
    plain
        .iter()
        .flatten()
        .any(|words| pages(words).contains(&page))
}

// The different pages of the list, each told where it comes first.
pub(crate) fn different(plain: &[Slot]) -> u32 {
    let mut count: u32 = 0;
    for (slot, held) in plain.iter().enumerate() {
        if let Some(words) = held {
            let before = &plain[..slot];
            let [first, second] = pages(words);
            if !holds(before, first) {
                count = count.wrapping_add(1);
            }
            if second != first && !holds(before, second) {
                count = count.wrapping_add(1);
            }
        }
    }
    count
}

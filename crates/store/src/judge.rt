// What every kind of store refuses: a slot that is not there, then another number of words, then an empty slot.
// The numbers are those of a store: its slots, the width of its snapshots, whether the slot holds one. Numbers and no
// struct of them: one kind counts its slots at each call, another marks them, and each would make one for each call.
ghost use Rattle.std.specs.Prelude.{◌≡◌, ◌<◌, IsTrue, OnOk};
ghost use Rattle.store.specs.Slots.{put_answer, get_answer, free_answer};

use terms::Refusal;

/// Whether so many words may be put into a slot: that it is there, and that they are a snapshot.
pub fn may_put(slots: usize, width: usize, slot: usize, len: usize) -> Result<(), Refusal>
    ensures answer { result ≡ put_answer slots width slot len }
    ensures there { OnOk result (slot < slots) }
    ensures whole { OnOk result (len ≡ width) }
{
    if slot >= slots {
        return Err(Refusal::NoSlot);
    }
    if len != width {
        return Err(Refusal::WrongWidth);
    }
    Ok(())
}

/// Whether a slot may be freed: that it is there, and not empty.
pub fn may_free(slots: usize, slot: usize, held: bool) -> Result<(), Refusal>
    ensures answer { result ≡ free_answer slots slot held }
    ensures there { OnOk result (slot < slots) }
    ensures held { OnOk result (IsTrue held) }
{
    if slot >= slots {
        return Err(Refusal::NoSlot);
    }
    if !held {
        return Err(Refusal::EmptySlot);
    }
    Ok(())
}

/// Whether a slot may be read into a buffer of so many words: all that a put asks, and that the slot is not empty.
pub fn may_get(
    slots: usize,
    width: usize,
    slot: usize,
    len: usize,
    held: bool,
) -> Result<(), Refusal>
    ensures answer { result ≡ get_answer slots width slot len held }
    ensures there { OnOk result (slot < slots) }
    ensures whole { OnOk result (len ≡ width) }
    ensures held { OnOk result (IsTrue held) }
{
    may_put(slots, width, slot, len)?;
    may_free(slots, slot, held)
}

//! A sentence on each refusal of a step: what was expected, or what to do.
ghost use Rattle.std.specs.Prelude.{◌≡◌};
ghost use Rattle.commands.specs.Sentences.{refusal_sentence};

use machine::Refusal;

/// One sentence on each refusal of a step, after its number, where no names are known. No memory is taken.
pub fn refusal_sentence(refusal: Refusal) -> &'static str
    ensures { result.now ≡ refusal_sentence refusal }
{
    match refusal {
        Refusal::Spent => "M1: 2^62 steps were accepted, and no more are.",
        Refusal::NoCpu => "M2: the program has no processor of this number: they count from 0.",
        Refusal::Halted =>
            "M3: the processor has ended its program, or is trapped: only a crash starts it again.",
        Refusal::BufferNotEmpty =>
            "M4: `mfence` and the locked operations wait until the store buffer is empty: drain it first.",
        Refusal::BufferFull => "M5: the store buffer is full, with 128 entries: drain one first.",
        Refusal::NoEntry =>
            "M6: the store buffer has no entry at this place: places count from 0, and the oldest entry is at 0.",
        Refusal::Held(_) =>
            "M7: an earlier entry of the store buffer holds this one: drain that one first.",
        Refusal::LineFull =>
            "M8: 256 writes of the cache line are pending, and there is no room for more: persist one first.",
        Refusal::MarkersFull =>
            "M9: 256 flushes are pending, and there is no room for more: settle one first.",
        Refusal::NoLine => "M10: the program has no cache line of this number: they count from 0.",
        Refusal::NoPending => "M11: no write of the cache line is pending: drain one first.",
        Refusal::BehindMarker =>
            "M12: a flush is pending before the oldest write of the cache line: settle it first.",
        Refusal::NoMarker => "M13: no flush is pending: drain one first.",
        Refusal::MarkerWaits =>
            "M14: a write of the cache line that the oldest pending flush is of is before it: persist it first.",
    }
}

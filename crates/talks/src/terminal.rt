//! Where a conversation goes on.
ghost use Rattle.std.specs.Prelude.{List, [], ◌++◌, OnOk};
ghost use Rattle.talks.specs.Events.{Event, hearing, Tells};

use commands::Failed;

/// Something that is read byte by byte, and written to.
///
/// A reader and a writer, each with a contract of its own, could not say that an answer was written before the next line was read.
/// So one trait stands for both, and one list has all events, in their order. A caller of any terminal knows no more of
/// `went` than the two laws at its end: what it states of the order of its calls holds at each.
pub trait Terminal {
    /// Between these two values of it these events went on, in this order, and no others.
    ghost went: { Self → Self → List Event → Type 0 };

    /// One call more may be made. After a call that failed it may not be.
    ghost is_ready: { Self → Type 0 };

    /// Reads one byte; none at the end.
    ///
    /// # Errors
    ///
    /// [`Failed`], where the read failed.
    fn hear(&mut self) -> Result<Option<u8>, Failed>
        requires { is_ready self.old }
        ensures went { went self.old self.new (hearing result) }
        ensures ready { OnOk result (is_ready self.new) };

    /// Writes all of a text. It is written when the call returns: none of it waits.
    ///
    /// # Errors
    ///
    /// [`Failed`], where a write failed. A beginning of the text was written then.
    fn tell(&mut self, text: &[u8]) -> Result<(), Failed>
        requires { is_ready self.old }
        ensures went { Tells (went self.old self.new) text.now result }
        ensures ready { OnOk result (is_ready self.new) };

    /// Between a value and itself nothing went on.
    ghost nothing: { (t : Self) → went t t [] };

    /// What went on in two parts went on.
    ghost both: { (a b c : Self) (x y : List Event) → went a b x → went b c y → went a c (x ++ y) };
}

//! The sources of tokens.

ghost use Rattle.std.specs.Prelude.{◌≡◌, ℕ, List, Bool, true, is_err};
ghost use Rattle.ipld_tokens.specs.Token.{TokenModel};
ghost use Rattle.ipld_tokens.specs.Source.{NextToken};

use crate::token::Token;

/// A source of tokens. A finite list of tokens remains in it, and it either has failed or has not.
///
/// A source that has failed returns an error from then on.
pub trait TokenSource<'a> {
    /// The reason why a source fails.
    type Fault: Drop;

    // the tokens that remain, with bytes by their contents and without hints
    ghost remaining: { Self → List TokenModel };

    // a call has failed; each further one fails
    ghost failed: { Self → Bool };

    // bytes that the tokens come from, which no call changes
    ghost origin: { Self → List ℕ };

    // which errors a source with this origin may return
    ghost allows_fault: { List ℕ → Self.Fault → Type 0 };

    // whether a source with this origin may come to its end
    ghost allows_end: { List ℕ → Type 0 };

    /// Returns the next token and removes it from the remaining tokens, or returns `None` if no
    /// token remains.
    ///
    /// # Errors
    ///
    /// The error of a source that failed, in this call or before. The remaining tokens stay as they
    /// were, and the source has failed for good.
    fn next_token(&mut self) -> Result<Option<Token<'a>>, Self::Fault>
        ensures next { NextToken (allows_fault (origin self.old)) (allows_end (origin self.old))
            (remaining self.old) (remaining self.new) result }
        ensures origin { origin self.new ≡ origin self.old }
        ensures failed { failed self.new ≡ is_err result }
        ensures stays { failed self.old ≡ true → is_err result ≡ true };

    /// Returns whether the source has failed.
    fn has_failed(&self) -> bool
        ensures { result ≡ failed self.now };
}

/// The reason why a source over memory stops: it was made to stop.
#[derive(Clone, Copy, Debug, PartialEq, Eq)]
pub struct Stopped;

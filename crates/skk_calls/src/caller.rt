use crate::answer::Answer;
use crate::call::Call;
use std::alloc::Global;

/// Someone who calls a dictionary.
pub trait Caller {
    ghost use Rattle.std.specs.Prelude.{◌≡◌, ℕ, List, [], ◌∷◌, ◌++◌, true};
    ghost use Rattle.skk_calls.specs.declared.answer.Answer.{Answer};
    ghost use Rattle.skk_calls.specs.declared.call.Call.{Call};
    ghost use Rattle.skk_calls.specs.Dictionary.{is_fit, may_answer};

    /// The caller's number.
    ghost number: { Self → ℕ };

    /// The calls that it made so far, each with its answer, in order.
    ghost said: { Self → List (Call × Answer) };

    /// The caller's number.
    fn number(&self) -> u32
        ensures { result ≡ number self.now };

    /// Makes a call. The answer is of the call's kind, and a lookup or a completion is refused only where the caller is
    /// out of memory.
    fn call(&mut self, alloc: Global, call: &Call) -> Answer
        requires { is_fit call.now ≡ true }
        ensures said { said self.new ≡ said self.old ++ (call.now, result) ∷ [] }
        ensures number { number self.new ≡ number self.old }
        ensures may { may_answer call.now result ≡ true };
}

/// What is left of a caller that calls no more.
pub trait Kept {
    ghost use Rattle.std.specs.Prelude.{ℕ, List};
    ghost use Rattle.skk_calls.specs.declared.answer.Answer.{Answer};
    ghost use Rattle.skk_calls.specs.declared.call.Call.{Call};

    /// The caller's number.
    ghost number: { Self → ℕ };

    /// The calls that it made, each with its answer, in order.
    ghost said: { Self → List (Call × Answer) };
}

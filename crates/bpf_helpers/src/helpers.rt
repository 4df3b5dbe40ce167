//! The helpers that a program may call. RFC 9669, section 4.3.1, leaves them to the platform.

ghost use Rattle.std.specs.Prelude.{◌≡◌, ◌≤◌, ◌↔◌, ℕ, Some, IsTrue, IsSome, IfSome};
ghost use Rattle.bpf_helpers.specs.declared.helpers.Helper.TheVariants.{Reply, Copy};
ghost use Rattle.bpf_helpers.specs.Helpers.{numbered, Answers, AnswersIn, answer_of, greatest_answer};
ghost use Rattle.bpf_range.specs.Sets.{Contains, range_of};

use crate::values::Env;
use bpf_range::Known;

/// A helper. A call puts the returned number, the helper's answer, into R0.
#[derive(Clone, Copy, Debug, PartialEq, Eq)]
pub enum Helper {
    /// 1: makes the number in R1 the reply word; returns 0.
    Reply,
    /// 2: returns the time given in the command.
    Now,
    /// 3: returns 1 if the key existed, otherwise 0.
    Present,
    /// 4: returns the session's number.
    Who,
    /// 5: copies n bytes from the address in R2 to the address in R1, for the number n in R3; returns n.
    Copy,
}

/// Returns the helper with a number from 1 to 5, or `None` for any other number. Allocates no memory.
pub fn helper_of(id: i32) -> Option<Helper>
    ensures { result ≡ numbered id }
{
    match id {
        1 => Some(Helper::Reply),
        2 => Some(Helper::Now),
        3 => Some(Helper::Present),
        4 => Some(Helper::Who),
        5 => Some(Helper::Copy),
        _ => None,
    }
}

/// Returns true if a helper has the number.
pub fn known(id: i32) -> bool
    ensures { IsTrue result ↔ IsSome (numbered id) }
{
    helper_of(id).is_some()
}

/// Returns true if the helper with the number takes a number in R1; only 1 does.
pub fn takes_number(id: i32) -> bool
    ensures { IsTrue result ↔ (numbered id ≡ Some Reply) }
{
    matches!(helper_of(id), Some(Helper::Reply))
}

/// Returns true if the helper with the number copies bytes; only 5 does.
pub fn copies(id: i32) -> bool
    ensures { IsTrue result ↔ (numbered id ≡ Some Copy) }
{
    matches!(helper_of(id), Some(Helper::Copy))
}

impl Helper {
    /// Returns the helper's answer for R0. `given` is the argument: for `Reply` the number in R1,
    /// which becomes the reply word; for `Copy` the number of bytes. The caller copies the bytes.
    /// The other helpers ignore `given`. Only `Reply` changes the reply word. Allocates no memory.
    pub fn answer(self, given: u64, env: &Env, word: &mut u64) -> u64
        ensures value { result ≡ (answer_of self given env.entry.now word.old).value }
        ensures word { word.new ≡ (answer_of self given env.entry.now word.old).word }
    {
        match self {
            Helper::Reply => {
                *word = given;
                0
            }
            Helper::Now => env.now,
            Helper::Present => env.present as u64,
            Helper::Who => env.who,
            Helper::Copy => given,
        }
    }

    /// The greatest answer: 0 for `Reply`, 1 for `Present`, 1,024 for `Copy`, and `u64::MAX` for
    /// `Now` and `Who`.
    fn greatest(self) -> u64
        ensures { result ≡ greatest_answer self }
    {
        match self {
            Helper::Reply => 0,
            Helper::Now | Helper::Who => u64::MAX,
            Helper::Present => 1,
            Helper::Copy => 1024,
        }
    }

    /// The possible answers: all numbers from 0 to `greatest`.
    #[tactic(auto, using(crate::proofs::AnswerFacts::answer_fits))]
    pub fn result(self) -> Known
        ensures contains { AnswersIn (Contains result) self }
        ensures exact { (x : ℕ) → Contains result x ↔ (x ≤ greatest_answer self) }
        ensures range { ((range_of result).lo ≡ 0) × ((range_of result).hi ≡ greatest_answer self) }
    {
        Known::of(0, self.greatest())
    }
}

/// The possible answers of the helper with a number, like `Helper::result`. The helper must exist.
/// Allocates no memory.
pub fn result(id: i32) -> Known
    requires { IsSome (numbered id) }
    ensures contains { IfSome (numbered id) (AnswersIn (Contains result)) }
    ensures exact { IfSome (numbered id) (λ helper. (x : ℕ) → Contains result x ↔ (x ≤ greatest_answer helper)) }
    ensures range { IfSome (numbered id) (λ helper. ((range_of result).lo ≡ 0) × ((range_of result).hi ≡ greatest_answer helper)) }
{
    match helper_of(id) {
        Some(helper) => helper.result(),
        None => unreachable!(),
    }
}

/// Returns the answer of the helper with a number, like `Helper::answer`. If no helper has the
/// number, returns `None` and leaves the reply word unchanged. Allocates no memory.
pub fn call(id: i32, given: u64, env: &Env, word: &mut u64) -> Option<u64>
    ensures { Answers id given env.entry.now word.old result word.new }
{
    let helper = helper_of(id)?;
    Some(helper.answer(given, env, word))
}

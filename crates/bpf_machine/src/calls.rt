//! Calls of helpers that touch no memory.

ghost use Rattle.std.specs.Prelude.{ℕ, List, ◌≢◌};
ghost use Rattle.bpf_helpers.specs.declared.helpers.Helper.TheVariants.{Copy};
ghost use Rattle.bpf_machine.specs.Words.{Answers, core_of};

use bpf_helpers::{Env, Helper};

/// Calls a helper that touches no memory. R1 to R5 keep their words, but no accepted program reads them.
#[inline(always)]
pub fn do_answer(registers: &mut [u64; 11], word: &mut u64, env: Env, helper: Helper)
    requires { helper ≢ Copy }
    ensures { (stack : List ℕ) → Answers helper (core_of registers.old stack word.old) (core_of registers.new stack word.new) env }
{
    let given = registers[1];
    registers[0] = helper.answer(given, &env, word);
}

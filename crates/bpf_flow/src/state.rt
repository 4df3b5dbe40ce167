//! The state before and after an instruction.

ghost use Rattle.std.specs.Prelude.{◌≡◌, ◌≤◌, length};
ghost use Rattle.bpf_insn.specs.Spelling.{IsOperand};
ghost use Rattle.bpf_helpers.specs.Machine.{operand as operand_of};
ghost use Rattle.bpf_helpers.specs.Runs.{start, IsInput};
ghost use Rattle.bpf_flow.specs.Kinds.{HoldsKind};
ghost use Rattle.bpf_flow.specs.States.{Fits, kind_in};
ghost use Rattle.bpf_flow.specs.Steps.{Sets};

use bpf_helpers::{ARGUMENT_LIMIT, RECORD_LIMIT};
use bpf_insn::Operand;
use bpf_range::{Kind, Known, Range};

/// The state before an instruction: the kind of each register, and the ranges of the lengths of record and argument.
#[derive(Clone, Copy, Debug)]
pub struct State {
    pub kinds: [Kind; 11],
    pub bytes: Range,
    pub argument: Range,
}

impl State {
    /// The state at the start of a run.
    pub fn at_start() -> State
        ensures { (bytes argument : _) (env : _) → IsInput bytes argument env → Fits result (start bytes argument env) }
    {
        State {
            kinds: [
                Kind::Unset,
                Kind::Rec { lo: 0, hi: 0 },
                Kind::RecLen,
                Kind::Arg { lo: 0, hi: 0 },
                Kind::ArgLen,
                Kind::Unset,
                Kind::Unset,
                Kind::Unset,
                Kind::Unset,
                Kind::Unset,
                Kind::Stack { lo: 0, hi: 0 },
            ],
            bytes: Range {
                lo: 0,
                hi: RECORD_LIMIT as u64,
            },
            argument: Range {
                lo: 0,
                hi: ARGUMENT_LIMIT as u64,
            },
        }
    }

    /// The kind of a register.
    pub fn kind(&self, register: u8) -> Kind
        requires { register ≤ 10 }
        ensures { result ≡ kind_in self.now register }
    {
        self.kinds[register as usize]
    }

    /// The kind of an operand. An immediate is a number, sign-extended to 64 bits.
    pub fn operand(&self, operand: Operand) -> Kind
        requires { IsOperand operand }
        ensures { (c : _) → Fits self.now c → HoldsKind result (length c.bytes) (length c.argument) (operand_of c operand) }
    {
        match operand {
            Operand::Imm(k) => Kind::Num(Known::single((k as i64).cast_unsigned())),
            Operand::Reg(r) => self.kind(r),
        }
    }

    /// Sets the kind of a register.
    pub fn set(&mut self, register: u8, kind: Kind)
        requires { register ≤ 10 }
        ensures { Sets self.old self.new register kind }
    {
        self.kinds[register as usize] = kind;
    }
}

/// The edges on which a run may continue after an instruction.
#[derive(Clone, Copy)]
pub enum Way {
    /// No edge: the run ends, or never reaches the instruction.
    End,
    Next,
    Jump,
    /// Both edges: to the next instruction, and to the target of the jump.
    Both,
}

//! The data of a running program, except its record and its argument.

ghost use Rattle.std.specs.Prelude.{◌≡◌, ℕ, List, ◌<◌, slice_index_or};
ghost use Rattle.bpf_insn.specs.Code.{unit_limit};
ghost use Rattle.bpf_insn.specs.Spelling.{IsRegister, IsOperand};
ghost use Rattle.bpf_helpers.specs.declared.values.Env.{Env as EnvOf};
ghost use Rattle.bpf_helpers.specs.Runs.{start};
ghost use Rattle.bpf_helpers.specs.Machine.{operand as operand_of, with_register};
ghost use Rattle.bpf_reference.specs.Cpu.{config_of, Leads, GoesTo};

use bpf_helpers::{Env, Region, Value};
use bpf_insn::{Code, Insn, Operand};
use std::alloc::Allocator;

/// The data that a run changes, except the record.
#[derive(Clone, Copy)]
pub struct Cpu {
    /// The unit of the next instruction.
    pub place: usize,
    pub registers: [Value; 11],
    pub stack: [u8; 512],
    /// The reply word.
    pub word: u64,
}

impl Cpu {
    /// The data at the start of a run.
    pub fn start(bytes: &[u8], argument: &[u8]) -> Cpu
        ensures place { result.place ≡ 0 }
        ensures value { (env : EnvOf) → config_of result bytes.now argument.now env ≡ start bytes.now argument.now env }
    {
        Cpu {
            place: 0,
            registers: [
                Value::Nothing,
                Value::Pointer(Region::Record, 0),
                Value::Number(bytes.len() as u64),
                Value::Pointer(Region::Argument, 0),
                Value::Number(argument.len() as u64),
                Value::Nothing,
                Value::Nothing,
                Value::Nothing,
                Value::Nothing,
                Value::Nothing,
                Value::Pointer(Region::Stack, 0),
            ],
            stack: [0; 512],
            word: 0,
        }
    }

    /// The value of a register.
    pub fn register(&self, r: u8) -> Value
        requires { IsRegister r }
        ensures { result ≡ slice_index_or self.now.registers r Value.Nothing }
    {
        self.registers[r as usize]
    }

    /// The value of an operand.
    pub fn operand(&self, operand: Operand) -> Value
        requires { IsOperand operand }
        ensures { (bytes argument : List ℕ) (env : EnvOf) → result ≡ operand_of (config_of self.now bytes argument env) operand }
    {
        match operand {
            Operand::Imm(k) => Value::Number((k as i64).cast_unsigned()),
            Operand::Reg(r) => self.register(r),
        }
    }

    /// Moves to the instruction at a unit and returns it. Returns `None`, and changes nothing, if no instruction begins there.
    pub fn go<A: Allocator>(&mut self, code: &Code<A>, place: usize) -> Option<Insn>
        ensures { GoesTo code.now place self.old self.new result }
    {
        let next = code.insn_at(place)?;
        self.place = place;
        Some(next)
    }

    /// Writes a register, moves to the instruction `units` units further and returns it. Returns `None`, and changes nothing, if the
    /// register is R10 or no instruction begins at that unit.
    pub fn set<A: Allocator>(
        &mut self,
        code: &Code<A>,
        units: usize,
        r: u8,
        value: Value,
    ) -> Option<Insn>
        requires r { IsRegister r }
        requires place { self.old.place < unit_limit }
        requires forward { 0 < units }
        requires units { units < 3 }
        ensures { (bytes argument : List ℕ) (env : EnvOf) → Leads code.now (with_register (config_of self.old bytes argument env) units r value) (config_of self.old bytes argument env) (config_of self.new bytes argument env) result }
    {
        if r == 10 {
            return None;
        }
        let next = self.go(code, self.place + units)?;
        self.registers[r as usize] = value;
        Some(next)
    }
}

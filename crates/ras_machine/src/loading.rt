//! The words of an image in memory.

ghost use Rattle.std.specs.Prelude.{◌≡◌, ◌<◌, ◌≤◌, ◌%◌, ◌^◌, ℕ, length, slice_index, IfOk};
ghost use Rattle.ras_bits.specs.declared.map.TheConstants.{MOST_WORDS};
ghost use Rattle.mem_stack.specs.Stack.{loaded_stack};
ghost use Rattle.mem_stack.specs.StackStands.{StackStands};

use mem_stack::Stack;
use poison_mem::{FlatMem, FlipBus};
use ras_bits::NoMemory;
use std::alloc::Global;

/// A plain memory of these words, which are zero before they are loaded. The one refusal is want of
/// memory.
#[tactic(auto, using(crate::proofs::Filled::none_filled, crate::proofs::Filled::one_more_filled, crate::proofs::Filled::zero_filled, crate::proofs::Filled::all_filled))]
pub(crate) fn memory_of(alloc: Global, words: &[u64]) -> Result<FlatMem, NoMemory>
    requires { length words.now < 2 ^ 32 }
    ensures { IfOk result (λ memory. memory ≡ words.now) }
{
    let mut memory = FlatMem::make(alloc, words.len() as u32)?;
    for w in 0..words.len() {
        if words[w] != 0 {
            memory.load(w as u32, words[w]);
        }
    }
    Ok(memory)
}

/// A stack that holds no line, over codewords of these words, which are zero before they are
/// loaded. The one refusal is want of memory.
#[tactic(auto, using(crate::proofs::Filled::none_filled, crate::proofs::Filled::one_more_filled, crate::proofs::Filled::zero_filled, crate::proofs::Filled::all_filled))]
pub(crate) fn stack_of(alloc: Global, words: &[u64]) -> Result<Stack, NoMemory>
    requires lines { length words.now % 8 ≡ 0 }
    requires some { 8 ≤ length words.now }
    requires most { length words.now ≤ MOST_WORDS }
    ensures loaded { IfOk result (λ stack. stack ≡ loaded_stack words.now) }

    // It stands for these words, whatever flips are told of them.
    ensures stands { IfOk result (λ stack.
        (q : ℕ → ℕ) → StackStands stack (slice_index words.now) q) }
{
    let mut stack = Stack::make(alloc, words.len() as u32)?;
    for w in 0..words.len() {
        if words[w] != 0 {
            stack.load(w as u32, words[w]);
        }
    }
    Ok(stack)
}

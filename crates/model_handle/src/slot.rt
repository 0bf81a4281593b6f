//! A model in whichever stage it is, as a sealed child.

use crate::node::{Hit, Node};
use bit_ops::Bits;
use model_stage::{Child, Order};
use std::mem;

/// A model in one of its stages. Between calls none is moved.
#[derive(Drop)]
pub enum Slot<C> {
    Ready(Node<C>),
    Struck(Hit<C>),
    /// Its model is in the hands of a call.
    Moving,
}

impl<C: Child> Child for Slot<C> {
    ghost use Rattle.model_handle.specs.Slots.{slot_model, IsReadySlot, IsStruckSlot, slot_is_ready, slot_is_struck};

    ghost model = { slot_model C.model };

    ghost ready = { IsReadySlot C.model C.ready C.struck };

    ghost struck = { IsStruckSlot C.model C.ready C.struck };

    ghost is_ready = { slot_is_ready C.model C.ready C.struck C.is_ready };

    ghost is_struck = { slot_is_struck C.model C.ready C.struck C.is_ready };

    fn update<F: Fn(u32, u32) -> u32 + Drop>(&mut self, inputs: &[Bits], order: &Order<F>) -> u64 {
        match self {
            Slot::Ready(node) => node.combo(inputs, order),
            Slot::Struck(_) | Slot::Moving => 0,
        }
    }

    fn strike<F: Fn(u32, u32) -> u32 + Drop>(&mut self, clocks: &[bool], order: &Order<F>) {
        match mem::replace(self, Slot::Moving) {
            Slot::Ready(node) => *self = Slot::Struck(node.strike(clocks, order)),
            Slot::Struck(_) | Slot::Moving => {}
        }
    }

    fn publish(&mut self) -> u64 {
        match mem::replace(self, Slot::Moving) {
            Slot::Struck(hit) => {
                let number = hit.number();
                *self = Slot::Ready(hit.publish());
                number
            }
            Slot::Ready(_) | Slot::Moving => 0,
        }
    }

    fn held(&self, k: usize) -> Bits {
        match self {
            Slot::Ready(node) => node.held(k),
            Slot::Struck(_) | Slot::Moving => Bits::zero(1),
        }
    }

    fn out(&self, k: usize) -> Bits {
        match self {
            Slot::Ready(node) => node.out(k),
            Slot::Struck(hit) => hit.out(k),
            Slot::Moving => Bits::zero(1),
        }
    }
}

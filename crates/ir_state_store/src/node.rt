//! A state by numbers.

ghost use Rattle.ir_state_store.specs.Nodes as nodes;

use crate::spot::Spot;
use ir_image::Code;
use std::marker::Model;

/// The code of a state, the numbers of its threads, and its objects.
#[derive(Drop)]
pub struct Node<'a> {
    pub code: &'a Code,
    pub threads: Vec<u32>,
    pub objects: Vec<Spot>,
}

impl<'a> Model for Node<'a> {
    ghost Value = { nodes.Node };

    ghost view = { λ n. record { code = n.code.now; threads = n.threads.items; objects = n.objects.items } };
}
